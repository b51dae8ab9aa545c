//! Progress: by places, or without hard faults, something is left to do while a run isn't over; and
//! without hard faults somebody does it. Laws alone.
//! Model: a state of a run (`ppm_runs`) whose tree advances (`ppm_advance`), `IsAdvancing` of
//! `proofs/AdvanceRuns`.
//! Contract: each moment of a run by places has something to do (`specs/Ready`); a place whose kind
//! isn't work has no job (`specs/Idle`); without hard faults somebody works while the run isn't
//! over (`specs/Works`; over legs `specs/Legs`), and whoever does makes a work turn soon
//! (`specs/Soon`). So without hard faults a run that leaves out no processor comes to its end
//! (`specs/Laps`), and so does the replay of a schedule with acts enough (`specs/Replays`).
//! Stands on `ppm_runs` and `ppm_advance`; for schedules on `ppm_choice`.
//! After the scheduler of Blelloch et al., SPAA 2018. Their bound on time takes this for granted.
#![tactic(auto)]

mod finishing;
mod laws;

pub use finishing::{replays_end, runs_end_fairly};
pub use laws::{
    idle_deques_are_empty, left_comes_later, single_facts_allow_stuck_pieces, somebody_works,
    something_is_ready, work_turns_come_soon,
};
