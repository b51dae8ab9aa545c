//! The code of a listing: its reader, with the first fault of a text that is none.
//! Model: a text is a list of lines, each of a form or of none; a fault is a rule that one line
//! breaks at its place by what the whole text declares (`specs/Forms`, `specs/Places`,
//! `specs/Faults`).
//! Contract: `read_listing` answers the code whose listing the text is, or its first fault
//! (`specs/Correct`).
//! Stands on `ppm_listing`; `ppm_commands` calls it.
//! After the input of an assembler, one line an instruction; the forms and faults are this
//! project's.
#![tactic(auto)]

mod declared;
mod first;
mod form;
mod instr;
mod laws;
mod listing_error;
mod operand;
mod outline;
mod part;
mod place;
mod reader;
mod reading;
mod rules;
mod token;

pub use form::{Sort, is_of, sorts};
pub use laws::faults_tell_listings;
pub use listing_error::{Fault, ListingError};
pub use part::Part;
pub use place::Place;
pub use reading::{LISTING_LIMIT, read_listing};
pub use token::{Token, first_spelled, token_in};
