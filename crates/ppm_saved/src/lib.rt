//! Saved states of a machine: their text, and what fresh processors find.
//! Model: a text is lines round a listing, its words in runs of equal ones (`specs/Text`); fresh
//! processors find each cell as `specs/Renewal` says.
//! Contract: `write_saved` gives the one text of a state, which no other has
//! (`saved_texts_tell_states`); `renew` gives the words of fresh processors, cell by cell.
//! Stands on `ppm_listing` and `ppm_layout`; `ppm_resumed` says what holds of runs in parts.
//! After the restart from persistent memory of Blelloch et al., SPAA 2018; the format is this
//! project's.
#![tactic(auto)]

mod laws;
mod names;
mod numbers;
mod renewal;
mod run;
mod saved;
#[cfg(test)]
mod tests;
mod writing;

pub use laws::{runs_are_the_longest, saved_texts_tell_states};
pub use names::{NamedLength, Names};
pub use renewal::{Renewed, renew};
pub use run::Run;
pub use saved::Saved;
pub use writing::write_saved;
