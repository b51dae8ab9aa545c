//! Bounds that are counted procedure by procedure.

/// The slots of a procedure, at most.
pub const SLOT_LIMIT: usize = 24;

/// The names of outside that the block of an `each` names, at most.
pub const CAUGHT_LIMIT: usize = 10;

/// What is counted in a procedure.
#[derive(Clone, Copy)]
pub enum Bound {
    /// Its slots, and those of its hidden procedures.
    Slots,
    /// The names of outside that the block of each `each` names.
    Caught,
}
