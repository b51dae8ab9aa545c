//! Why an input was not read whole.
use crate::failed::Failed;
use std::alloc::AllocError;
use thiserror::Error;

/// Why an input was not read whole.
#[derive(Clone, Copy, Debug, PartialEq, Eq, Error)]
pub enum ReadError {
    /// The source failed, and its count of faults rose.
    #[error("the source failed")]
    Failed,
    /// Memory for the bytes was refused.
    #[error("out of memory")]
    NoMemory,
}

impl From<AllocError> for ReadError {
    ghost use Rattle.std.specs.Prelude.{◌≡◌};
    ghost use Rattle.ppm_ports.specs.declared.read_error.ReadError.TheVariants as errors;

    ghost from_gives = { λ _ e. e ≡ errors.NoMemory };

    fn from(_: AllocError) -> Self {
        ReadError::NoMemory
    }
}

impl From<Failed> for ReadError {
    ghost use Rattle.std.specs.Prelude.{◌≡◌};
    ghost use Rattle.ppm_ports.specs.declared.read_error.ReadError.TheVariants as errors;

    ghost from_gives = { λ _ e. e ≡ errors.Failed };

    fn from(_: Failed) -> Self {
        ReadError::Failed
    }
}
