//! From tokens to the tree of a program, or the fault at which they are none.
//! Model: the rows of the grammar (`ppm_rows`); a function reads the items of a row from a cursor
//! on, which has the tokens in front and what may still come (`specs/Room`), or stops with a fault
//! (`specs/Parsing`).
//! Contract: `parse` answers the one tree of the tokens within the limits, or their one fault
//! (`specs/Faults`).
//! Stands on `ppm_rows`, `ppm_tree` and `ppm_text`; `ppm_program` calls it. Recursive descent by
//! one token of look-ahead, after Lewis and Stearns; the faults and limits are this project's.
#![tactic(auto)]

mod call;
mod cursor;
mod declaration;
mod expression;
mod limit;
mod parameter;
mod parsing;
mod room;
mod statement;
mod stop;
mod syntax_error;

pub use limit::Limit;
pub use parsing::parse;
pub use syntax_error::SyntaxError;
