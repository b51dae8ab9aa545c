//! The code of a program, as a function of its tree.
//! Model: capsules by absolute numbers, a statement's in the order of the text (`specs/Statements`,
//! `specs/Routines`).
//! Stands on `ppm_tree`, `ppm_cut_bounds` and `ppm_code`.
#![tactic(auto)]

mod laws;

pub use laws::{few_capsules, keeps_the_rules, lines_alone, names_have_slots, procedures_stand};
