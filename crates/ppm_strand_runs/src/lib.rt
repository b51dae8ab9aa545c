//! Runs of strands that may race, by a schedule: its turns, then all strands in rounds, until the
//! root's strand is over.
//! Model: the moments of `ppm_interleaving`, by a schedule (`specs/Order`), and the first of them
//! after which something does not stand (`specs/First`), with the turn in which that was made
//! (`specs/Made`).
//! Contract: `run_strands` makes exactly that run, and tells its deeds and exactly that moment
//! (`specs/Run`).
//! Stands on `ppm_interleaving`, on `ppm_plan` for schedules, and on `ppm_code` for the words of
//! arrays.
//! After the schedules of `ppm_following`; the rounds are this project's.
#![tactic(auto)]

mod done;
mod drawn;
mod laws;
mod made;
mod order;
mod root;
mod run;
mod running;

pub use done::{Done, Fall};
pub use drawn::{DrawnRun, Draws, drawn_steps, first_drawn_fall};
pub use laws::{falls_of_runs_refute, runs_are_one};
pub use made::Made;
pub use run::StrandRun;
pub use running::run_strands;
