//! Tests of cases whose strands race, of their schedules, and of the runs of these.
//! Model: a case of one word, in which two branches race.
//! Contract: none; each public call is made once, and each law is cited.
//! Stands on `ppm_racy_case`, `ppm_strand_runs` and what they stand on; no crate stands on it.
//! The case is this project's.
#![tactic(auto)]

#[cfg(test)]
mod run_tests;
