//! Cases: a code with the arrays that it starts from, as a text, read and written.
//! Model: a text is lines of arrays, each of words, and then a listing (`specs/Spelling`,
//! `specs/Case`).
//! Contract: `read_case` answers the case of a text or its first fault (`specs/Faults`), and
//! `write_case` writes a text of a case (`specs/Text`).
//! Stands on `ppm_listing` and `ppm_listing_reader`; the commands that judge cases stand on it, and
//! `ppm_racy_case` reads arrays with it.
//! After the readers of listings; the form of the arrays is this project's.
#![tactic(auto)]

mod arrays;
mod case;
mod case_error;
mod laws;
mod line;
mod reading;
mod row;
mod run;
mod values;
mod writing;

pub use arrays::{Arrays, read_arrays};
pub use case::Case;
pub use case_error::{CaseError, CaseFault, InputFault};
pub use laws::{faults_tell_cases, written_cases_are_read};
pub use line::{Numbers, Room, is_array_name};
pub use reading::{CASE_LIMIT, are_below, read_case};
pub use row::Row;
pub use run::{Run, run_in};
pub use writing::write_case;
