//! The rules of names and regions: from a program to an admitted one.
//! Model: the uses of names in a program, each with the declarations in force there
//! (`specs/Uses.antt`, `specs/Scope.antt`); a fault is what is wrong with a use
//! (`specs/Faults.antt`).
//! Contract: `admit` answers the same program, which has no fault, or its fault of the least
//! number, at the first line (`specs/Admission.antt`).
//! Stands on `ppm_tree` and `ppm_words`; `ppm_program` calls it, and the compiler stands on it.
//! Scopes are those of block structure; that a region is written in one place at a time is after
//! Rust's borrows; the rules are this project's.
#![tactic(auto)]

mod admitted;
mod admitting;
mod ask;
mod calling;
mod declaring;
mod expression;
mod found;
mod initial;
mod laws;
mod lending;
mod naming;
mod procedures;
mod program;
mod region_error;
mod scope;
mod walk;

pub use admitted::Admitted;
pub use admitting::admit;
pub use laws::{have_one_fault, keep_rules};
pub use region_error::RegionError;
