//! The command `strands`: the strands of a case, which may race, are run by a schedule, or by
//! schedules that are drawn.
//! Model: a text has the answer of its case (`specs/Cases`); what is written of a run are lines of
//! its deeds, what it came to, and its first fall (`specs/Lines`).
//! Contract: `strands_command` and `drawn_strands_command` deliver the one answer of a text, of
//! exactly the run of the schedule, or of the first drawn one in whose run something falls
//! (`specs/Strands`, `specs/Drawn`). What follows from each status: `specs/StrandsRows`,
//! `specs/DrawnRows`.
//! Stands on `ppm_strand_runs`, `ppm_racy_case`, `ppm_plan`, `ppm_loading` and `ppm_answers`;
//! `ppm_top` calls it. The form of the lines is this project's.
#![tactic(auto)]

mod arrays;
mod cases;
mod drawn;
mod laws;
mod lines;
mod strands;
mod telling;

pub use drawn::drawn_strands_command;
pub use laws::{drawn_strands_have_one_answer, strands_have_one_answer};
pub use strands::strands_command;
