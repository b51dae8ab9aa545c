//! What can stand at a place of a text: the tokens with which some text of the grammar goes on.
//! Model: what is still to come after tokens is a stack of items, by one token of look-ahead
//! (`specs/Machine`).
//! Contract: just what some text of the grammar has there, both ways (`specs/Next`).
//! Stands on `ppm_grammar` and `ppm_rows`.
//! After the predictive parsers of Lewis and Stearns (LL(1)), whose table has the tokens expected
//! at an error.
#![tactic(auto)]

mod choice;
mod declarations;
mod expected;
mod expressions;
mod laws;
mod phrase;
mod row;
mod stack;
mod statements;
mod terminal;

pub use expected::{Expected, expected_at_fault};
pub use laws::collects_expected;
pub use terminal::Terminal;
