//! Trials of the threads: what their watchers are told, that threads meet, that processors park, and
//! that a refusal ends a run; and of processors of a table whose turns no plan says.
//! Model: none; all of it is tests, by what one processor does alone and by rules of obedience.
//! Contract: none.
//! Stands on `ppm_threads`, `ppm_table` and `ppm_core`, and on `ppm_listing_reader`, on which the
//! threads themselves do not stand.
//! After the rules of plans, of limits and of parking.
#![tactic(auto)]

mod alone;
mod bounded;
#[cfg(test)]
mod counts;
mod meeting;
#[cfg(test)]
mod meetings;
mod obeying;
#[cfg(test)]
mod refusals;
#[cfg(test)]
mod runs;
#[cfg(test)]
mod tables;
#[cfg(test)]
mod turns;

pub use alone::record;
pub use bounded::Bounded;
pub use meeting::{Meeting, comes};
pub use obeying::obeys;
