//! What a command that runs a machine is told to do: a plan of faults or a schedule comes first, and
//! then what it runs, a program, a case or a RAM.
//! Model: orders are a list of items in a form of `ppm_plan`, a task what a text says of one kind
//! (`specs/Orders`); a text is that of a RAM or has a first fault (`specs/Rams`).
//! Contract: `read_task` gives the orders and the task, or the answer where there is nothing to run:
//! it is an answer of each command that reads them (`proofs/OrdersLemmas`, `RamTaskLemmas`).
//! `form_by` gives the form in which `trace` tells a run (`specs/TraceForms`). What is written where
//! the text is of no case: `specs/CaseRefusals`.
//! Stands on `ppm_plan`, `ppm_loading`, `ppm_case`, `ppm_ram` and `ppm_lines`; the commands that run
//! a machine call it. That orders are judged before the text is this project's.
#![tactic(auto)]

mod forms;
mod orders;
mod rams;

pub use forms::form_by;
pub use orders::{Orders, Task, read_task};
