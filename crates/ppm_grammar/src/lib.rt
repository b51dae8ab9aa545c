//! Grammars as tables of rows: what they derive, and the one fault of tokens that they do not
//! derive.
//! Model: rows with items, an opening, counts and a value (`specs/Rows`); one relation derives
//! (`specs/Derivation`).
//! Contract: where one token tells the row, tokens have one tree within limits or one fault
//! (`specs/Correct`).
//! Stands on nothing of the project; `ppm_rows` has the rows of the language.
//! After the predictive grammars of Lewis and Stearns (LL(1)); the faults and limits are this
//! project's.
#![tactic(auto)]

mod laws;

pub use laws::{have_one_answer, parsers_answer, test_tells};
