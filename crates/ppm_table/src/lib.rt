//! The words of a machine in a table that threads share, and its processors.
//! Model: a run of the machine, of which each processor's seat keeps what it did (`specs/Run`).
//! Contract: a turn is one atomic step of the run; when all processors are back, the closed words
//! and what each did are one run.
//! Stands on `ppm_step`, `ppm_layout`, `ppm_widths` and the kit's `atomic_table`; steps in a row and
//! the driver of the threads stand on it.
//! After the parallel persistent memory of Blelloch et al., SPAA 2018.
#![tactic(auto)]

mod act_counts;
mod closed;
mod closing;
mod laws;
mod opening;
mod padded;
mod processor;
mod touching;
mod turning;
mod view;

pub use act_counts::ActCounts;
pub use closed::Closed;
pub use closing::total_counts;
pub use laws::act_counts_tell_turns;
pub use padded::Padded;
pub use processor::{Processor, Shared};
pub use touching::{Found, give_up, hear, step_event, tell, touch};
pub use turning::is_done;
pub use view::{
    Deed, Exchanges, Hardens, Loads, Opening, Record, Refuses, Softens, Spends, Stores, View, Words,
};
