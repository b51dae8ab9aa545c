//! A procedure's frame by names: what an expression is worth in it, what a call fills, what is read.
//! Model: a frame is two lists of what names stand for (`specs/Frames.antt`); what is read is a list
//! as well (`specs/Readings.antt`).
//! Contract: each function answers what the serial meaning has of that frame, or stops at its trap.
//! Stands on `ppm_tree`; `ppm_trapped` and `ppm_standing` follow runs over these frames.
#![tactic(auto)]

mod entering;
mod evaluating;
mod frame;
mod held;
mod reading;
mod region;
mod starting;
mod statements;
mod stop;
mod store;

pub use entering::{enter, enter_both, named, named_main};
pub use evaluating::{element_value, evaluate, first_words};
pub use frame::{Frame, Lent, Local};
pub use held::{Held, Reading};
pub use reading::{read_call, read_element, read_fork, read_split, read_value};
pub use region::Region;
pub use starting::{initial_store, main_frame};
pub use statements::{Each, Split, choose, holds};
pub use stop::Stop;
pub use store::Store;
