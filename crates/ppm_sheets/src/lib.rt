//! Sheets: plain texts of cases, each of which is a call with what has to be answered.
//! Model: none; a sheet is its lines, and a case is a call (`Call`) with what is wanted of it.
//! Contract: nothing but safety and an end is proved; what a sheet means is tested, by sheets that are
//! wrong on purpose.
//! Stands on `std` alone; the programs that try cases stand on it.
//! The form of a sheet is this project's; `docs/CASES.md` has it.
#![tactic(auto)]

mod call;
mod expander;
mod fault;
mod judge;
mod judged;
mod lines;
mod names;
mod sheets;
mod sweep;

pub use call::{Call, Shown};
pub use fault::{Fault, Unmade};
pub use sheets::judge_sheets;
