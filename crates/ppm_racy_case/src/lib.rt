//! Cases whose strands may race: a code with exchanges, and the arrays that it starts from, as a
//! text.
//! Model: a text is the lines of arrays of `ppm_case`, and then a listing with exchanges
//! (`specs/Case`).
//! Contract: `read_racy_case` answers the case of a text, or its one fault (`specs/Faults`).
//! Stands on `ppm_case`, which reads the arrays, and on `ppm_racy_listing`.
//! After the readers of listings and of cases; the form is this project's.
#![tactic(auto)]

mod laws;
mod racy_case;
mod reading;

pub use laws::racy_faults_tell_cases;
pub use racy_case::RacyCase;
pub use reading::read_racy_case;
