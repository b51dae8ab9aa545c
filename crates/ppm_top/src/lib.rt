//! The program's commands, from the words and the bytes that are read to the bytes that are written
//! and the status.
//! Model: the ports and watchers before a call and after it (`Outside` of `ppm_ports`); each
//! command has a table of the answers that may come (`specs/Causes`), and an answer is delivered
//! (`ppm_answers`).
//! Contract: `ppm` delivers an answer that the causes of the command allow which the words give;
//! what follows from each status is in `specs/Rows`. The laws on which they rest: `specs/Laws`.
//! Stands on `ppm_cli`, on the crates of the commands and on `ppm_answers`; `main` calls it.
//! The commands are this project's.
#![tactic(auto)]

mod laws;
mod top;

pub use laws::{program_laws, sound_cases_run_as_depth};
pub use ppm_driver::WATCHERS;
pub use top::ppm;
