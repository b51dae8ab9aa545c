//! The widths of capsules, and registers set to 0 up to a width.
//! Model: the width of a capsule is one more than the highest register that it reads, 0 where it
//! reads none (`specs/Widths`).
//! Contract: `widths` answers those of all capsules of a code, by their numbers; after `set_to_0`
//! registers hold 0 up to a width, and a capsule of that width goes from them as from 0 in all 64
//! (`begins_same` of `proofs/WidthLemmas`).
//! Stands on `ppm_code`; machine and table keep the widths of their code, and steps in a row set
//! registers to 0 by them.
//! After the capsules of Blelloch et al., SPAA 2018; widths are this project's.
#![tactic(auto)]

mod width;
mod zeros;

pub use width::widths;
pub use zeros::set_to_0;
