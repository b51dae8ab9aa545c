//! What commands that run a machine have in common: the program of a text, the machine or the table
//! with which a run of a code on an input begins, and the arrays that words stand for.
//! Model: a machine opens a code on arrays (`specs/Loading`); words say an answer (`specs/Says`); a
//! text has the answer of its program (`specs/Programs`), or of its case (`specs/Cases`), after a
//! plan or a schedule (`specs/Planned`). What an answer tells of a case: `specs/Telling`.
//! Contract: `read_program` gives the program of what is read, `program_code` its code, and
//! `case_of_source` the case of it, or the answer where there is none; `load_code` and `share_code`
//! give what opens a code, and `load` what opens a program's; `arrays_of` and `arrays_of_closed`
//! the arrays of the words. What statuses say of such a command: `specs/MachineRows`.
//! Stands on `ppm_case`, `ppm_program`, `ppm_cut`, `ppm_core`, `ppm_table`, `ppm_plan` and
//! `ppm_answers`; the commands that run a machine stand on it. The answers and their order are this
//! project's.
#![tactic(auto)]

mod arrays;
mod cases;
mod loading;
mod planned;
mod programs;
mod telling;

pub use arrays::{arrays_of, arrays_of_closed, to_values};
pub use cases::{case_of_source, text_case};
pub use loading::{Sizes, load, load_code, program_code, share_code, share_code_to_count};
pub use planned::refusal_answer;
pub use programs::{read_program, text_program};
pub use telling::{array_count, counts_told, line_at, store_told};
