//! The code of a RAM: each instruction as two capsules, each of which reads one copy of the
//! registers and writes the other.
//! Model: the code of a RAM, instruction by instruction (`specs/Code`).
//! Contract: `ram_code` makes this code, and `ram_input` the input with which it begins. With every
//! memory the code is sound, and ends exactly where the RAM ends (`specs/Correct`).
//! Stands on `ppm_ram`, `ppm_code` and `ppm_depth`; the command `ram` of `ppm_driver` stands on it.
//! After the simulation of a RAM in the parallel persistent memory of Blelloch et al., SPAA 2018.
#![tactic(auto)]

mod bank;
mod code;
mod instrs;
mod laws;

pub use bank::Bank;
pub use code::{ram_code, ram_input};
pub use laws::{ends_as_the_ram, is_sound, keeps_the_rules};
