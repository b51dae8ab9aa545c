//! What the text of a trace says of its run; laws alone.
//! Model: two runs from one situation are one where the same processors act, each with the same act
//! but for a victim that nobody asks for, and where the machine is in the same situation after each
//! act (`specs/Runs`).
//! Contract: two runs whose lines of all acts are one text are one (`lines_tell_turns`), and so are
//! two whose traces are (`traces_tell_turns`). Two schedules whose traces are one text make the very
//! same turns (`traces_tell_schedules`).
//! Stands on `ppm_trace`; no command stands on it.
//! The text form and these laws are this project's.
#![tactic(auto)]

mod laws;

pub use laws::{lines_tell_turns, traces_tell_schedules, traces_tell_turns};
