//! What the program of the command `self` means: it sums an array by halves; laws alone.
//! Model: the text that `ppm_plan` makes, its tree, and the serial meaning of that tree.
//! Contract: the text has this program (`examples_are_programs`), and the program ends with the sum
//! in the array's first word and the last value in its last, with one fork less than it has values,
//! and in few capsules and words (`examples_sum`).
//! Stands on `ppm_program`, `ppm_plan` and `ppm_cut_correct`; `ppm_driver` rests on both laws.
#![tactic(auto)]

mod laws;

pub use laws::{examples_are_programs, examples_sum};
