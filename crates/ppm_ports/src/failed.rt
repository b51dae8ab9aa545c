//! A fault of the outside.
use thiserror::Error;

/// The outside failed: this call read or wrote nothing, and the port's count of faults rose.
#[derive(Clone, Copy, Debug, PartialEq, Eq, Error)]
#[error("the outside failed")]
pub struct Failed;
