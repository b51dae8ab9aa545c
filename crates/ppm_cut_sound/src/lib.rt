//! That the code of a program is sound with every input for its arrays.
//! Model: tidy code, write-after-read conflicts and calm trees of strands (`ppm_code`,
//! `ppm_strands`).
//! Contract: `CodeIsSound` of `specs/Correct`.
//! Stands on `ppm_cut_code`, on `ppm_ownership` for what frames own, and on `ppm_depth`.
#![tactic(auto)]

mod laws;

pub use laws::{code_is_sound, may_be_stopped, store_tidily};
