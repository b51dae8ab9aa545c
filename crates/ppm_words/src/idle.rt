//! What a processor does that finds no work.

/// What a processor does after a row of looks that found nothing.
#[derive(Clone, Copy, Debug, PartialEq, Eq)]
pub enum Idle {
    /// It leaves the run.
    Leave,
    /// It parks until another processor wakes it.
    Park,
}
