//! How far a program passes a bound of the compiler: what passes it first, and the count that does.
//! Model: the counts of `ppm_cut_bounds`; the first that is more than its limit, in the order of the
//! text (`specs/Excess`).
//! Contract: `excess_in` and `capsule_count` answer exactly these; a procedure keeps a bound just
//! where `excess_in` answers nothing.
//! Stands on `ppm_tree` and `ppm_cut_bounds`; `ppm_explain` tells the counts.
//! The names of outside are the free names of a block, as in closure conversion.
#![tactic(auto)]

mod capsules;
mod outside;
mod passing;
mod slots;
mod walk;

pub use capsules::capsule_count;
pub use passing::{Counted, Excess, excess_in};
