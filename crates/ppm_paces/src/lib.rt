//! How many word steps the rows of work make, and what is set aside for those that follow; laws alone.
//! Model: a row (`ppm_step`) with the word steps that it has made, and a number for each restart kind.
//! Contract: no row of work makes more word steps than its kind allows, and each restart word that it stores is paid.
//! Stands on `ppm_step`; `ppm_runs` bounds the work of whole runs by it.
//! After the analysis of Blelloch et al., SPAA 2018, by constants; these constants are this machine's.
#![tactic(auto)]

mod laws;

pub use laws::{capsules_are_short, looks_are_free, rows_are_paid, rows_keep_pace};
