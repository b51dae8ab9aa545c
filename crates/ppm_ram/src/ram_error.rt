//! Why a text is of no RAM.
ghost use Rattle.std.specs.Prelude.{◌≡◌};
ghost use Rattle.ppm_ram.specs.Lines.{fault_number};

use ppm_words::NoMemory;
use std::alloc::{AllocError, AllocFailed};
use thiserror::Error;

/// A rule that a line of a RAM's text may break.
#[derive(Clone, Copy, Debug, PartialEq, Eq)]
pub enum RamFault {
    /// The line has not the form of a line that stands there, or no line feed; or the text is too
    /// long.
    NoSuchForm,
    /// A number is out of its range: the size of the memory, a value, or a register.
    OutOfRange,
    /// There are more values than words of memory.
    TooManyValues,
    /// A jump leads to an instruction that is not there.
    NoSuchTarget,
    /// The last instruction is neither `halt` nor `jump`.
    NoEnd,
    /// There are more than 30,000 instructions.
    TooMany,
}

/// Why a text is of no RAM. Lines count from 1.
#[derive(Clone, Copy, Debug, PartialEq, Eq, Error)]
pub enum RamError {
    /// The first fault of the text: the rule, and the line that breaks it.
    #[error("the RAM is refused for its line {1}")]
    Refused(RamFault, u32),
    /// Memory was refused.
    #[error("out of memory")]
    NoMemory,
}

impl RamFault {
    /// Its number, from 1 to 6.
    pub fn number(self) -> u32
        ensures { result ≡ fault_number self }
    {
        match self {
            RamFault::NoSuchForm => 1,
            RamFault::OutOfRange => 2,
            RamFault::TooManyValues => 3,
            RamFault::NoSuchTarget => 4,
            RamFault::NoEnd => 5,
            RamFault::TooMany => 6,
        }
    }
}

impl From<NoMemory> for RamError {
    ghost use Rattle.std.specs.Prelude.{◌≡◌};
    ghost use Rattle.ppm_ram.specs.declared.ram_error.RamError.TheVariants.{NoMemory};

    ghost from_gives = { λ _ e. e ≡ NoMemory };

    fn from(_: NoMemory) -> Self {
        RamError::NoMemory
    }
}

impl<T: Drop> From<AllocFailed<T>> for RamError {
    ghost use Rattle.std.specs.Prelude.{◌≡◌};
    ghost use Rattle.ppm_ram.specs.declared.ram_error.RamError.TheVariants.{NoMemory};

    ghost from_gives = { λ _ e. e ≡ NoMemory };

    fn from(_: AllocFailed<T>) -> Self {
        RamError::NoMemory
    }
}

impl From<AllocError> for RamError {
    ghost use Rattle.std.specs.Prelude.{◌≡◌};
    ghost use Rattle.ppm_ram.specs.declared.ram_error.RamError.TheVariants.{NoMemory};

    ghost from_gives = { λ _ e. e ≡ NoMemory };

    fn from(_: AllocError) -> Self {
        RamError::NoMemory
    }
}
