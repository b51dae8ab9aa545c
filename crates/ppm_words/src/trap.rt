//! Why a run of the language stops before its end.

/// The kind of a trap.
#[derive(Clone, Copy, Debug, PartialEq, Eq)]
pub enum Trap {
    /// A number below -2^63 or above 2^63 - 1 came out.
    Overflow,
    /// A division by 0.
    DivZero,
    /// An index outside its array.
    Index,
    /// A split of an array outside its range.
    Split,
}
