//! The bounds that the compiler sets on a program: slots of a procedure, names of outside in an
//! `each`, and capsules.
//! Model: counts on trees (`specs/Slots`, `specs/Names`, `specs/Capsules`) and their limits
//! (`specs/Bounds`).
//! Contract: `within_bounds` takes exactly the programs within all bounds, and names the fault of
//! any other (`specs/Refusals`), which is one (`specs/Correct`).
//! Stands on `ppm_tree`; `ppm_program` calls it. The names of outside are the free names of a
//! block, as in closure conversion; the counts are this project's.
#![tactic(auto)]

mod bound;
mod bound_error;
mod bounding;
mod capsules;
mod eaches;
mod laws;
mod names;
mod slots;
mod sought;
mod stop;
mod walk;

pub use bound_error::BoundError;
pub use bounding::within_bounds;
pub use laws::have_one_fault;
pub use names::{Mention, Names};
pub use slots::has_put;
