//! The depth-first run of a code: one strand runs each capsule whole, a left branch before a right
//! one.
//! Model: a code's strands (`ppm_code`, `specs/Strands`), run depth first (`specs/Run`).
//! Contract: `depth_first` gives the outcome of that run with its counts, or that it takes more
//! capsules.
//! Stands on `ppm_code` and the chains in turn of `ppm_strands`; the compiler is proved by it, and
//! the machine's runs are to be.
//! After the depth-first order of fork-join programs; the stack of blocks is this project's.
#![tactic(auto)]

mod capsule;
mod depth;
mod frame;
mod image;
mod laws;
mod store;
mod strand;

pub use capsule::{Done, block_words, instrs_of};
pub use depth::{DepthRun, depth_first, depth_run};
pub use frame::{Finish, For, Frame, Now, Waiting};
pub use image::root_store;
pub use laws::{orders_come_to_one_end, runs_are_there};
pub use store::{Place, Store};
pub use strand::{Counts, Strand, counted, entry};
