//! Sweeps a schedule with faults: its run, and the runs of it with faults put before the acts, one
//! after another, until one of them comes to something else than an outcome that is wanted.
//! Model: the schedules of a sweep are a list, by what is due along the run of each (`specs/Sweep`),
//! with the first fault before each act of a window, or before those drawn from it
//! (`specs/Windows`); the run of each is that of `ppm_following`.
//! Contract: `sweep` finds that all of them come to the outcome, and counts them, or the first that
//! does not (`specs/Found`); those of too many items are left out and counted. The text of a
//! schedule is read back as its items (`specs/Text`).
//! Stands on `ppm_following` and `ppm_core`; the command `sweep` of `ppm_sweep_command` stands on it. No
//! run begins anew: the machine is copied before each fault, and goes on from there.
//! Faults before each act are those of exhaustive crash tests; the order is this project's.
#![tactic(auto)]

mod ahead;
mod drawing;
mod found;
mod front;
mod laws;
mod meeting;
mod options;
mod spot;
mod sweeping;
mod text;

pub use found::{Differing, Stop, Tally};
pub use laws::{each_act_is_struck, sweeps_are_fair};
pub use options::{Draws, Sweeping, Window};
pub use sweeping::sweep;
pub use text::{schedules_are_written, write_schedule};
