//! Capsule code: its instructions, what they do, and the capsules that they make.
//! Model: a capsule is what its instructions ask of locations (`specs/Capsules`), a code a table
//! (`specs/Strands`).
//! Contract: an instruction is decoded to an act once; what has no conflict on any path may be run
//! again.
//! Stands on `ppm_strands`; the conflict check, the depth-first run and the machine's step stand
//! on it.
//! After the capsules and conflicts of Blelloch et al., SPAA 2018; the instructions are this
//! project's.
#![tactic(auto)]

mod act;
mod arithmetic;
mod class;
mod code;
mod input;
mod instr;
mod laws;
mod location;
mod region;
mod register;
mod size;
mod work;

pub use act::{Act, End, Step};
pub use class::{Class, May};
pub use code::{Capsule, Code, CodeParts, Procedure};
pub use input::{push_arrays, to_values};
pub use instr::Instr;
pub use laws::{acts_follow, capsules_may_begin_again, no_conflict_on_paths};
pub use location::{FrameWord, Location};
pub use register::Register;
pub use size::{fork_size, frame_size};
pub use work::{Reached, Stop, reach};
