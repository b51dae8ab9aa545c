//! A run of a schedule that is heard turn by turn, and told as a text, as events for a viewer of
//! traces, or as a picture.
//! Model: a trace is a head, a line for each turn that is shown, and a tail of what was counted
//! (`specs/Trace`); or a head, the events of each turn, and a tail (`specs/Json`); or a picture with
//! each turn in its processor's lane (`specs/Picture`).
//! Contract: `follow_heard` makes the run of a schedule, of which a listener hears exactly the turns
//! (`specs/Hearing`). `trace` makes it and answers exactly its trace in a form, from an act on;
//! `count_replay` makes it and answers what is counted in it (`specs/RunCounts`).
//! Stands on `ppm_lines`, `ppm_picture`, `ppm_core`, `ppm_following` and `ppm_answers`; the commands
//! `trace` and `replay` stand on it.
//! The text form is this project's.
#![tactic(auto)]

mod counting;
mod counts;
mod ends;
mod events;
mod hearing;
mod laws;
mod listener;
mod ordered;
mod picture;
mod replay_counts;
mod room;
mod strokes;
mod tale;
mod teller;
mod tracing;

pub use counts::Counts;
pub use hearing::follow_heard;
pub use laws::{
    counts_are_of_turns, counts_are_the_machines, lines_follow_on, thinner_lines_are_among,
    windows_are_parts,
};
pub use listener::Listener;
pub use replay_counts::count_replay;
pub use tracing::trace;
