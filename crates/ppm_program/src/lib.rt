//! What a text of the whole language comes to: its program, or why it is refused.
//! Model: the tokens of a text, their tree, its rules and bounds, pass by pass (`specs/Programs`,
//! `specs/Refusals`).
//! Contract: `program_of` gives the program of a text, or its refusal, by the pass that finds a
//! fault; a text has one of the two (`specs/Correct`).
//! Stands on the passes of the front end; the commands that take a source stand on it.
//! The order of the passes is this project's.
#![tactic(auto)]

mod judging;
mod laws;

pub use judging::{JudgeError, program_of};
pub use laws::have_one_answer;
