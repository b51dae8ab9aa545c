//! The serial interpreter: a program's outcome within a number of turns.
//! Model: the big-step meaning of `ppm_tree`; the program is laid out by slots (`specs/Code.antt`)
//! once before the run.
//! Contract: the outcome is the meaning's, and there is none exactly where more turns would be
//! spent.
//! Stands on `ppm_tree`; `ppm_commands` calls it.
//! An abstract machine with what is still to come on a stack, after Landin's SECD machine.
#![tactic(auto)]

mod code;
mod content;
mod frame;
mod interpret;
mod lay;
mod names;
mod region;
mod run;
mod stack;
mod store;
mod value;

pub use interpret::serial;
