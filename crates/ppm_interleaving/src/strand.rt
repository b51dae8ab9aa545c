//! Strands, and what they wait for.
use crate::own::Own;
use crate::running::Running;
use ppm_depth::Finish;

/// For which branches a frame waits, and the slots that their values go to, where they are named.
#[derive(Clone, Copy, Debug, PartialEq, Eq)]
pub enum Branches {
    /// One, which is the frame's callee.
    Callee {
        to: Option<u32>,
    },
    /// Two.
    Both {
        left_to: Option<u32>,
        to: Option<u32>,
    },
}

/// A frame that waits: its words, the capsule with which it goes on, and its branches, whose
/// numbers begin with `first`.
#[derive(Debug, Drop)]
pub struct Waiting {
    pub own: Own,
    pub capsule: u32,
    pub first: usize,
    pub branches: Branches,
}

/// Where a strand is.
#[derive(Debug, Drop)]
pub enum Strand {
    Running(Running),
    Waiting(Waiting),
    /// A branch of it trapped, and it is to tell this in its next turn.
    Tells(Finish),
    Over(Finish),
}
