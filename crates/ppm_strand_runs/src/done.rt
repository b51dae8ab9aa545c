//! What strands did, and the first change that did not stand.
use ppm_interleaving::{Deed, Fallen};

/// A deed, the strand that did it, and the turn in which it did. Turns count from 1.
#[derive(Clone, Copy, Debug, PartialEq, Eq)]
pub struct Done {
    pub turn: u64,
    pub strand: u32,
    pub deed: Deed,
}

/// The first change that did not stand, and the turn in which it was made: after which turn, whose
/// turn that was, and what the strand did in it that others saw.
#[derive(Clone, Copy, Debug, PartialEq, Eq)]
pub struct Fall {
    pub fallen: Fallen,
    pub made: u64,
    pub turn: u64,
    pub strand: u32,
    pub deed: Option<Deed>,
}
