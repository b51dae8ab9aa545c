//! A capsule of a frame under way.
use crate::frame::Home;
use crate::row::Seat;
use ppm_code::{End, Step};

/// What comes next.
#[derive(Clone, Copy, Debug, PartialEq, Eq)]
pub enum Stage {
    Before(Step),
    /// The store of the end with this number, from 0; after the last one the restart word.
    Ending(End, usize),
    /// The pool is full.
    Filled,
}

/// A capsule of a frame under way: where it stands, the number of the capsule, and the instruction
/// after its next step.
#[derive(Clone, Copy, Debug, PartialEq, Eq)]
pub struct Running {
    pub seat: Seat,
    pub home: Home,
    pub capsule: u32,
    pub next: usize,
    pub stage: Stage,
}
