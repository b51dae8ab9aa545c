//! Codes whose capsules may exchange array words: instructions, and a compare-and-modify beside
//! them.
//! Model: the strands of a code that may race, as `ppm_filled` has them, with exchanges
//! (`specs/Capsules`, `specs/Racing`).
//! Contract: an instruction is decoded to an act once; register work comes to the capsule's next
//! touch of a word, or to its end; a code without exchanges has the strands that it has without
//! this crate.
//! Stands on `ppm_code` and `ppm_filled`; listings with exchanges and the machine of strands stand
//! on it.
//! After the capsules with compare-and-modify of Blelloch et al., SPAA 2018; the instruction is
//! this project's.
#![tactic(auto)]

mod code;
mod instr;
mod laws;
mod touch;

pub use code::{RacyCapsule, RacyCode, RacyParts, plain_code};
pub use instr::{RacyAct, RacyInstr};
pub use laws::{faults_of_racy_paths_are_invisible, plain_codes_race_as_before};
pub use touch::{Stop, Touch, reach};
