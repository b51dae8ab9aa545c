//! The conflict check: whether a capsule of code may be stopped anywhere and begun again.
//! Model: paths through the instructions of a capsule, and conflicts on them (`ppm_code`,
//! `specs/Paths`).
//! Contract: `check` answers the least conflict, exactly where there is one; what it accepts may be
//! run again.
//! Stands on `ppm_code`; the command `check` calls it, the code of a program is such as it accepts
//! (`ppm_cut_sound`), and `ppm_gaps` walks paths as it does.
//! After the write-after-read conflicts of Blelloch et al., SPAA 2018; the check over paths is this
//! project's.
#![tactic(auto)]

mod checked;
mod conflict;
mod firsts;
mod laws;
mod masks;
mod paths;
mod tidiness;
mod untidy_store;

pub use checked::{Checked, Conflict, check};
pub use conflict::{Found, conflict_in};
pub use laws::accepted_code_runs_again;
pub use paths::{decoded, places_from};
pub use untidy_store::{UntidyStore, tidy, untidy};
