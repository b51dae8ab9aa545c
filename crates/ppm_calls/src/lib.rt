//! Callers of the crates below: one function for each way to use them from Rust.
//! Model: that of the calls (`specs/Turns`, `specs/Counter`, `specs/Soundness`, `specs/Records`,
//! `specs/Follows`, `specs/Heard`).
//! Contract: the clause of a caller says what it gets of the clauses of the calls that it makes.
//! Stands on `ppm_core`, `ppm_war`, `ppm_races`, `ppm_following`, `ppm_trace` and `ppm_driver`;
//! `ppm_test_top` runs each caller once, and docs/CALLING.md shows them.
//! The callers are this project's.
#![tactic(auto)]

mod following;
mod hearing;
mod making;
mod recorder;
mod recording;
mod soundness;
mod turning;

pub use following::{Followed, follow_schedule};
pub use hearing::{HeardRun, hear_schedule};
pub use making::counter;
pub use recorder::{ActRecorder, HeardAct};
pub use recording::{Recorded, record_run};
pub use soundness::{Doubt, sound_run};
pub use turning::take_turns;
