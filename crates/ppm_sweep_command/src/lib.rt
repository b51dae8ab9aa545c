//! The command `sweep`, of a program or of a case: replays of a schedule without a fault, and with
//! faults put before its acts.
//! Model: the list of the schedules is that of `ppm_sweep`, and what each comes to that of a replay
//! (`specs/Replays` of `ppm_outcomes`); why a sweep stops: `specs/Halts`.
//! Contract: `sweep_command` and `sweep_case_command` deliver that all replays agree with the
//! depth-first run of the code, or the first that does not (`specs/Sweeps`, `specs/CaseSweeps`), and
//! always return. What follows from each status: `specs/SweepRows`, `specs/CaseSweepRows`. A
//! difference of a sound code is of a replay that came to no end (`sweeps_are_as_code`).
//! Stands on `ppm_sweep`, `ppm_orders`, `ppm_outcomes`, `ppm_depth` and `ppm_answers`; `ppm_top`
//! calls it. Sweeps are this project's.
#![tactic(auto)]

mod as_code;
mod one_sweep;
mod sweep;
mod sweep_case;
mod sweeping;

pub use as_code::sweeps_are_as_code;
pub use one_sweep::{case_sweeps_have_one_answer, sweeps_have_one_answer};
pub use sweep::sweep_command;
pub use sweep_case::sweep_case_command;
