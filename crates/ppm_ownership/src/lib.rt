//! What the frames of an admitted program own, and that runs stay within it.
//! Model: the regions of a frame where declarations are in force (`specs/Owning.antt`), wherever a
//! run may come to (`specs/Coming.antt`), which is wherever the serial meaning stands
//! (`specs/Positions.antt`).
//! Contract: frames own apart, runs stay within their words, and branches may run in either order
//! (`specs/Correct.antt`).
//! Stands on `ppm_tree` and `ppm_regions`; the proofs of the compiler stand on `own_apart` and
//! `stay_within`. That a region is written in one place at a time is after Rust's borrows; the laws
//! are this project's.
#![tactic(auto)]

mod laws;

pub use laws::{come_to_sites, own_apart, positions_are_come_to, run_in_either_order, stay_within};
