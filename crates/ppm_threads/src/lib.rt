//! The processors of a machine on threads, each of which obeys a plan and limits.
//! Model: one run of `ppm_step`, in which every processor obeys (`ppm_choice`), and of which each
//! watcher is told its processor's part.
//! Contract: the closed words are those after that run, and where the answer is no want of memory
//! the finish word is set, by no quit of a processor whose watcher refused.
//! Stands on `ppm_stretch`, `ppm_table`, `ppm_choice` and `ppm_plan`; the commands that run a
//! machine on threads stand on it.
//! After the parallel persistent memory of Blelloch et al., SPAA 2018; the limits and their rules
//! are this project's.
#![tactic(auto)]

mod act_result;
mod crew;
mod driving;
mod going;
mod parking;

pub use driving::{drive, drive_counted};
pub use parking::{Credit, Gave, IdleParker, IdlePass, IdleUnparker, Tokens, Took, sleep};
