//! The run of a machine that a schedule says.
//! Model: what a schedule says of a machine is those of `ppm_choice`.
//! Contract: `follow` makes of a machine exactly what the turns of a schedule make of it, for at
//! most so many acts (`specs/Followed`). `make` makes one act of a run under way, and `follow_on`
//! goes on with such a run to its end (`specs/Following`). Two numbers that are told of a run: the
//! faults that its schedule orders (`specs/OrderedFaults`), and what its pools have given out
//! (`specs/Room`).
//! Stands on `ppm_core`, `ppm_choice` and `ppm_plan`; the commands that follow a schedule stand on
//! it. The schedules and their rules are this project's.
#![tactic(auto)]

mod following;

pub use following::{Way, follow, follow_on, make, processor_of, turn_of};
