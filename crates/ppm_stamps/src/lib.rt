//! Races of a depth-first run: which two branches of a fork meet on a word, found by stamps.
//! Model: a run with stamps, as a whole (`specs/Stamps`) and moment by moment (`specs/Moments`).
//! Contract: a run to its end meets nothing exactly where the tree is calm; what a capsule meets is
//! told by the stamps of the word.
//! Stands on `ppm_strands`; `ppm_races` runs codes so.
//! After the labels of determinacy race detectors, which number the strands of a serial run.
#![tactic(auto)]

mod laws;

pub use laws::{
    a_clean_run_is_calm, a_found_race_is_one, a_run_that_ends_is_told, forks_are_named,
    moments_are_one, moments_tell_of_calm, no_meeting_is_missed, runs_are_told_within,
    touches_are_named,
};
