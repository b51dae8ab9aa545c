//! The strands of a code that may race, step by step: whose turn it is, one after the other, with
//! soft faults.
//! Model: the runs of `ppm_unseen`, by a schedule (`specs/Turns`), and when what a capsule has
//! settled falls (`specs/Falls`).
//! Contract: a machine shows the one run of its schedule, and `Machine::fallen` answers exactly
//! what does not stand then (`specs/Shows`).
//! Stands on `ppm_racy`, and on `ppm_depth` for how strands are over; `ppm_strand_runs` makes the
//! turns of a schedule with it.
//! After the capsules with compare-and-modify of Blelloch et al., SPAA 2018; the conditions are
//! this project's.
#![tactic(auto)]

mod change;
mod deed;
mod ending;
mod fallen;
mod laws;
mod machine;
mod own;
mod running;
mod stepped;
mod strand;

pub use change::Change;
pub use deed::{Deed, Turn};
pub use fallen::Fallen;
pub use laws::{falls_refute, schedules_have_one_run};
pub use machine::Machine;
pub use own::Own;
pub use running::Running;
pub use strand::{Branches, Strand, Waiting};
