//! The words of a machine under one lock, seats from which processors make turns on them, and the
//! seats on threads.
//! Model: one run of `ppm_step` from the image, in which each quit for spent turns stands where its
//! processor has made all its work turns (`specs/Held`).
//! Contract: what stands under the lock is at every moment what such a run comes to. What a call of
//! `turn` tells is told of the turn that it made, where that stands in the run. Each work turn is
//! booked for the seat that made it, and at the close the work turns of the run are together as many
//! as the seats have made. Where a seat has found the run ended, and after `drive_locked`, the finish
//! word isn't 0.
//! Stands on `ppm_core`, whose machine it locks, and for threads on `ppm_choice` and `ppm_plan`. No
//! command runs it: tests do.
//! After the parallel persistent memory of Blelloch et al., SPAA 2018; the limit of work turns is
//! this project's.
#![tactic(auto)]

mod driving;
mod held;
mod history;
mod locked;
mod seat;

pub use driving::drive_locked;
pub use held::Keeping;
pub use history::BlankHistory;
pub use locked::Locked;
pub use seat::Seat;
