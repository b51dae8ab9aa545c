//! The check of capsules that may race and exchange array words: whether paths of one have a
//! conflict or a gap.
//! Model: an exchange reads and writes array words at one place (`specs/Conflicts`); gaps are those
//! with a put in place of each exchange (`ppm_gaps`).
//! Contract: `first_flaw` answers the first conflict or gap by a stated order, exactly where there
//! is one (`specs/Flaws`); a code without one has capsules that are ordered and filled, and its
//! faults are invisible where what they do stands (`specs/Correct`).
//! Stands on `ppm_gaps`, which judges the code with puts, and on the strands of `ppm_racy`;
//! `ppm_commands` calls it.
//! After the capsules with compare-and-modify of Blelloch et al., SPAA 2018; the check is this
//! project's.
#![tactic(auto)]

mod check;
mod laws;
mod repeats;

pub use check::first_flaw;
pub use laws::{racy_codes_without_flaws_are_restartable, racy_flaws_tell_codes};
