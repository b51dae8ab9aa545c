//! A RAM: a memory, eight registers and a list of instructions, read from a text and run.
//! Model: a text is what is written of a RAM (`specs/Text`); a RAM makes one instruction a step
//! (`specs/Meaning`).
//! Contract: `read_ram` answers the RAM of a text or its first fault (`specs/Lines`), and `ram_run`
//! how it ends within so many steps.
//! Stands on `ppm_tree` for what operators give; its code and the command `ram` stand on it.
//! After the random access machine of Cook and Reckhow; the form of the text is this project's.
#![tactic(auto)]

mod instruction;
mod keyword;
mod laws;
mod line;
mod number;
mod ram;
mod ram_error;
mod reading;
mod register;
mod run;
mod values;

pub use instruction::{Instruction, Operation};
pub use keyword::Keyword;
pub use laws::texts_are_of_rams;
pub use ram::{Ram, RamParts};
pub use ram_error::{RamError, RamFault};
pub use reading::{TEXT_LIMIT, read_ram};
pub use register::Register;
pub use run::{Next, ram_run};
