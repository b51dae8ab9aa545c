//! Why a text is no listing.
ghost use Rattle.std.specs.Prelude.{◌≡◌};
ghost use Rattle.ppm_listing_reader.specs.ErrorNumbers.{fault_number, number_of, line_of};
ghost use Rattle.ppm_listing_reader.specs.ErrorNumbers.{refusal_at};

use ppm_words::NoMemory;
use std::alloc::{AllocError, AllocFailed};
use thiserror::Error;

/// A rule that a line of a listing may break.
#[derive(Clone, Copy, Debug, PartialEq, Eq)]
pub enum Fault {
    /// The line has no form that may stand there.
    NoSuchForm,
    /// A number is out of its range.
    OutOfRange,
    /// A branch does not lead forward within its capsule.
    NotForward,
    /// A capsule does not end.
    NoEnd,
    /// Room is not asked for first, or not as much as is taken.
    WrongRoom,
    /// A procedure or capsule is not there, or there are too many of something.
    NotThere,
}

/// Why a text is no listing. Lines count from 1.
#[derive(Clone, Copy, Debug, PartialEq, Eq, Error)]
pub enum ListingError {
    /// The line has no form that may stand there.
    #[error("line {0} has no form that may stand there")]
    NoSuchForm(u32),
    /// A number is out of its range: a register, a slot, an array, a trap, a line, a constant, or
    /// words of room.
    #[error("a number in line {0} is out of its range")]
    OutOfRange(u32),
    /// A branch does not lead forward to an instruction of its capsule.
    #[error("the branch in line {0} does not lead forward in its capsule")]
    NotForward(u32),
    /// The last instruction of a capsule is no end, or it has no instructions.
    #[error("the capsule does not end in line {0}")]
    NoEnd(u32),
    /// Room is not asked for by the first instruction alone, or not as much as the line takes.
    #[error("line {0} breaks the rule on room")]
    WrongRoom(u32),
    /// What is named is not there, or of another procedure; or there are too many of something, or
    /// no capsule at all.
    #[error("line {0} names what is not there, or is one too many")]
    NotThere(u32),
    /// Memory was refused.
    #[error("out of memory")]
    NoMemory,
}

impl Fault {
    /// Its number, from 1 to 6.
    pub fn number(self) -> u32
        ensures { result ≡ fault_number self }
    {
        match self {
            Fault::NoSuchForm => 1,
            Fault::OutOfRange => 2,
            Fault::NotForward => 3,
            Fault::NoEnd => 4,
            Fault::WrongRoom => 5,
            Fault::NotThere => 6,
        }
    }

    /// The refusal for the fault at a line.
    pub(crate) fn at(self, line: u32) -> ListingError
        ensures { result ≡ refusal_at self line }
    {
        match self {
            Fault::NoSuchForm => ListingError::NoSuchForm(line),
            Fault::OutOfRange => ListingError::OutOfRange(line),
            Fault::NotForward => ListingError::NotForward(line),
            Fault::NoEnd => ListingError::NoEnd(line),
            Fault::WrongRoom => ListingError::WrongRoom(line),
            Fault::NotThere => ListingError::NotThere(line),
        }
    }
}

impl From<NoMemory> for ListingError {
    ghost use Rattle.std.specs.Prelude.{◌≡◌};
    ghost use Rattle.ppm_listing_reader.specs.declared.listing_error.ListingError.TheVariants.{NoMemory};

    ghost from_gives = { λ _ e. e ≡ NoMemory };

    fn from(_: NoMemory) -> Self {
        ListingError::NoMemory
    }
}

impl ListingError {
    /// The number of the fault, from 1 to 6; 0 where memory was refused.
    pub fn number(self) -> u32
        ensures { result ≡ number_of self }
    {
        match self {
            ListingError::NoSuchForm(_) => 1,
            ListingError::OutOfRange(_) => 2,
            ListingError::NotForward(_) => 3,
            ListingError::NoEnd(_) => 4,
            ListingError::WrongRoom(_) => 5,
            ListingError::NotThere(_) => 6,
            ListingError::NoMemory => 0,
        }
    }

    /// The line of the fault, from 1; 0 where memory was refused.
    pub fn line(self) -> u32
        ensures { result ≡ line_of self }
    {
        match self {
            ListingError::NoSuchForm(line)
            | ListingError::OutOfRange(line)
            | ListingError::NotForward(line)
            | ListingError::NoEnd(line)
            | ListingError::WrongRoom(line)
            | ListingError::NotThere(line) => line,
            ListingError::NoMemory => 0,
        }
    }
}

impl<T: Drop> From<AllocFailed<T>> for ListingError {
    ghost use Rattle.std.specs.Prelude.{◌≡◌};
    ghost use Rattle.ppm_listing_reader.specs.declared.listing_error.ListingError.TheVariants.{NoMemory};

    ghost from_gives = { λ _ e. e ≡ NoMemory };

    fn from(_: AllocFailed<T>) -> Self {
        ListingError::NoMemory
    }
}

impl From<AllocError> for ListingError {
    ghost use Rattle.std.specs.Prelude.{◌≡◌};
    ghost use Rattle.ppm_listing_reader.specs.declared.listing_error.ListingError.TheVariants.{NoMemory};

    ghost from_gives = { λ _ e. e ≡ NoMemory };

    fn from(_: AllocError) -> Self {
        ListingError::NoMemory
    }
}
