//! Trials of the machine turn by turn: a listing that is run with faults, and swept.
//! Model: none; all of it is tests, by what was worked out by hand.
//! Contract: none.
//! Stands on `ppm_core` and `ppm_sweep`, and on `ppm_listing_reader`, on which the machine itself does
//! not stand.
//! After the rules of turns. What always holds of the words is proved (`ppm_runs`), and not tried.
#![tactic(auto)]

mod listings;
#[cfg(test)]
mod machines;
#[cfg(test)]
mod struck;

pub use listings::{FORK, FORKED, SUM, code_of, four_words};
