//! The grammar of the language as rows of data, with its limits: which tokens have which tree, or
//! which fault.
//! Model: the parts of a text with their rows and what each makes (`specs/Language`,
//! `specs/Making`), and which tokens count for which limit (`specs/Limits`).
//! Contract: one token tells the row (`specs/Follow`), so tokens have one tree or one fault
//! (`specs/Correct`).
//! Stands on `ppm_grammar`, `ppm_text` and `ppm_tree`; `ppm_parser` reads tokens by these rows. The
//! grammar is this project's, its form that of the predictive grammars of Lewis and Stearns
//! (LL(1)).
#![tactic(auto)]

mod laws;
mod level;

pub use laws::{has_one_row, have_one_answer, trees_are_within};
pub use level::{Level, operator};
