//! Where a run of the serial meaning traps: the procedure, and what its names stand for there.
//! Model: a relation says which points a run reaches, by the rules of the meaning
//! (`specs/Sites.antt`); what is read at a point is a list (`deed_readings` of `specs/Walks.antt`).
//! Contract: the point that is told is reached, and what is evaluated there has the trap
//! (`specs/Walks.antt`).
//! Stands on `ppm_tree` and `ppm_by_name`.
//! An interpreter by recursion over the tree, after the rules of the meaning one by one.
#![tactic(auto)]

mod halt;
mod laws;
mod program;
mod told;
mod walking;

pub use laws::{trap_points_are_one, trap_points_trap, traps_have_points};
pub use program::{LEVEL_LIMIT, trap};
pub use told::Told;
