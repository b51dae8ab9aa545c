//! Progress by places with hard faults: what a dead processor leaves is taken over. Laws alone.
//! Model: a state of a run by places (`ppm_runs`), with who carries each place that it holds
//! (`AreCarried` of `proofs/CarriedTurns`).
//! Contract: while a run isn't over, some processor works, or is on its way to a place at work that
//! it has taken over, or the holder of a place at work is dead (`specs/Lost`). Who works makes a
//! work turn soon (`specs/Soon`), and looks are short (`specs/Short`). So a run in which processors
//! go on and places that were left are looked at comes to its end (`specs/Laps`), and so does a
//! replay, whose rounds are such laps (`specs/Replays` of `ppm_progress`), of fresh processors
//! after legs too (`specs/Replays`).
//! Stands on `ppm_progress`, which has this without hard faults.
//! After the scheduler of Blelloch et al., SPAA 2018; takeover by places is this project's.
#![tactic(auto)]

mod finishing;
mod laws;

pub use finishing::{legs_replayed_end_by_places, replays_end_by_places, runs_end_by_places};
pub use laws::{looks_are_short, nothing_is_lost, work_turns_come_soon_by_places};
