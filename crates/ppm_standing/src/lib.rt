//! Where a run of the serial meaning stands once its turns are spent: the procedure, what its names
//! stand for there, and the calls that are open.
//! Model: a run by steps, with what is open around it as a list (`specs/Standing.antt`); what is told
//! of the place is a record (`specs/Stood.antt`).
//! Contract: what is told is of the place where the run stands, before a step that takes more turns
//! than are left; a law joins this place to the meaning (`specs/Correct.antt`).
//! Stands on `ppm_tree`, `ppm_by_name`, and for the law on what is to come in `ppm_serial`.
#![tactic(auto)]

mod around;
mod laws;
mod run;
mod standing;
mod stood;
mod telling;

pub use laws::stand_where_later;
pub use standing::stand;
pub use stood::Stood;
