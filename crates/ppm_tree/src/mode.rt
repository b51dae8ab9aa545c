//! How a procedure takes a parameter.

/// How a procedure takes a parameter.
#[derive(Clone, Copy, Debug, PartialEq, Eq)]
pub enum Mode {
    /// A region that may be read and written.
    Mut,
    /// A region that may be read.
    Ref,
    /// A number.
    Int,
}
