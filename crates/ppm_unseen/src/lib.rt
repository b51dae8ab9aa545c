//! Faults of strands that may race: when each run with faults has the history of a run without.
//! Model: capsules over own and shared words, in codes that fork and join (`specs/Capsule`); a run
//! is a history along which each strand comes so far (`specs/Run`).
//! Contract: laws alone; where capsules are ordered and filled, and what they do stands in runs
//! without faults, faults are invisible, and each of the three conditions is needed.
//! Stands on `ppm_strands`; `ppm_filled` stands on it.
//! After the capsules with compare-and-modify of Blelloch et al., SPAA 2018; the law is this
//! project's.
#![tactic(auto)]

mod laws;

pub use laws::{
    calm_writes_stand, each_condition_is_needed, faults_are_invisible,
    racing_claims_are_restartable, runs_are_histories,
};
