//! Whether two branches of a fork meet on an array word, in a code with its input.
//! Model: the strands of the code (`ppm_depth`), and the stamps of its depth-first run
//! (`ppm_stamps`).
//! Contract: `races` says that the code is calm with the input, with its run, or names the first
//! race of that run, or says that it takes more capsules (`specs/Verdicts`).
//! Stands on `ppm_depth` and `ppm_stamps`; the command `races` calls it.
//! After determinacy race detectors for fork-join programs; one stamp of touches a word is this
//! project's.
#![tactic(auto)]

mod capsule;
mod judging;
mod laws;
mod naming;
mod race;
mod stamps;
mod touch;
mod walk;

pub use judging::{Verdict, races};
pub use laws::{verdicts_are_one, verdicts_are_there};
pub use race::{Opener, Race, Touching, Visit};
