//! The state of a saved text: its reader, with the fault of the first wrong line of a text that is
//! none.
//! Model: a line has a form, stands at a place by the lines in front of it, and keeps the rules of
//! that place (`specs/Lines`, `specs/Rules`, `specs/Places`).
//! Contract: `read_saved` answers the state whose text it is, or the fault of the first wrong line
//! (`specs/Correct`).
//! Stands on `ppm_saved`, `ppm_listing_reader` and `ppm_war`; `resume_command` of `ppm_stop_command` calls
//! it.
//! After the readers of listings; the form and its faults are this project's.
#![tactic(auto)]

mod first_run;
mod heading;
mod laws;
mod lines;
mod reading;
mod repeated;
mod rules;
mod saved_error;

pub use laws::faults_tell_saved_texts;
pub use lines::{Sizes, run_in};
pub use reading::{SAVED_LIMIT, read_saved};
pub use saved_error::{Fault, SavedError};
