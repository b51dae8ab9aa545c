//! Small instances of the crates of laws, tests that cite each of their laws, and listings that are
//! run depth first.
//! Model: capsules over four words of a byte each (`specs/Sample`) and trees of them that race
//! (`specs/Races`); capsules with one register that a stop loses (`specs/Stops`); two strands run
//! with faults (`specs/Copies`); a code whose strands race, and whose faults are invisible
//! (`specs/Clears`).
//! Contract: `sample::run` runs depth first, `stops::run_with_stops` with stops; laws fail where
//! their premise does.
//! Stands on `ppm_strands`, its tests of listings on `ppm_depth` and
//! `ppm_listing_reader`, those of laws on the crates of the theorem, on `ppm_trace` and on
//! `ppm_trace_laws`; no crate stands on it. The tests of `ppm_code`, `ppm_racy` and
//! `ppm_interleaving` are here, since a crate with tests is proved twice. The instances are this
//! project's.
#![tactic(auto)]

pub mod clears;
#[cfg(test)]
mod code_tests;
pub mod copies;
#[cfg(test)]
mod depth_tests;
#[cfg(test)]
mod gap_tests;
#[cfg(test)]
mod progress_tests;
#[cfg(test)]
mod race_tests;
pub mod races;
#[cfg(test)]
mod racy_tests;
pub mod sample;
pub mod stops;
#[cfg(test)]
mod strand_tests;
#[cfg(test)]
mod tests;
#[cfg(test)]
mod theorem_tests;
#[cfg(test)]
mod unseen_tests;
