//! The check of capsules that may race: whether each is filled, as its paths tell.
//! Model: the four things that a filled capsule has not (`ppm_filled`, `specs/Filled`), here its
//! gaps.
//! Contract: `first_gap` answers the first gap by a stated order, exactly where there is one, and
//! `check_racing` the first conflict or gap; a code without one has capsules that are ordered and
//! filled (`specs/Correct`).
//! Stands on `ppm_filled` and on the walks of `ppm_war`; `ppm_racy_gaps` calls it.
//! After the capsules with compare-and-modify of Blelloch et al., SPAA 2018; the check is this
//! project's.
#![tactic(auto)]

mod blocks;
mod finds;
mod gaps;
mod hanging;
mod instrs;
mod laws;
mod left_out;
mod operands;
mod racing;
mod stops;
mod unbuilt;
mod ways;

pub use blocks::OtherBlock;
pub use gaps::{CapsuleGap, Gap, first_gap};
pub use laws::{codes_without_flaws_are_restartable, flaws_tell_codes};
pub use left_out::LeftOut;
pub use racing::{Flaw, check_racing};
pub use unbuilt::Unbuilt;
pub use ways::leads;
