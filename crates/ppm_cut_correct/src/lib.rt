//! That the code of a program ends exactly where the program does when both branches of each fork
//! are run whole, as it means, with every input for its arrays.
//! Model: the serial meaning of `ppm_tree`, run whole, and the depth-first run of `ppm_depth`.
//! Contract: the outcome, at most two capsules a turn, the forks and the words of frames and
//! blocks, both ways (`end_as_meant`), and so the serial outcome (`ends_serially`); the arrays that
//! a text gives are such an input (`start_with_input`), and the code's root names arrays of each
//! (`name_arrays`).
//! Stands on `ppm_cut_code`, `ppm_depth` and the chains in turn of `ppm_strands`; `ppm_outcomes`
//! rests on the last three laws, `ppm_commands` on `end_as_meant`.
#![tactic(auto)]

mod laws;

pub use laws::{end_as_meant, ends_serially, name_arrays, start_with_input};
