//! The words of the machine by name, and their values as text.
//! Model: each address is that of one cell (`specs/Addresses`); names and values are texts
//! (`specs/Cells`, `specs/Values`).
//! Contract: `addressed` is `address` read backwards (`addresses_name_cells`); each `push_` appends
//! the text that its definition says, and fails only where memory is refused.
//! Stands on `ppm_cells` and `ppm_pieces`; the lines of a trace are written by it.
//! The text form is this project's.
#![tactic(auto)]

mod address;
mod cell;
mod kind;
mod laws;
mod names;
mod numbers;
mod value;
mod words;

pub use address::addressed;
pub use cell::push_cell;
pub use kind::{WordKind, kind_of};
pub use laws::addresses_name_cells;
pub use names::{Names, ProcedureName, push_procedure};
pub use value::push_value;
pub use words::{restart_name, side_name};
