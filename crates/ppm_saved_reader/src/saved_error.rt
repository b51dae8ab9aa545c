//! Why a text is none of a saved state.
ghost use Rattle.std.specs.Prelude.{◌≡◌};
ghost use Rattle.ppm_saved_reader.specs.ErrorNumbers.{fault_number, number_of, line_of};
ghost use Rattle.ppm_saved_reader.specs.ErrorNumbers.{refusal_at, refusal_behind};

use ppm_listing_reader::ListingError;
use ppm_words::NoMemory;
use std::alloc::{AllocError, AllocFailed};
use thiserror::Error;

/// What may be wrong with a line of a saved text.
#[derive(Clone, Copy, Debug, PartialEq, Eq)]
pub enum Fault {
    /// It has no form that may stand there, or says again what was said; or the text ends too soon.
    NoSuchForm,
    /// A number is out of its range, or the arrays are past their limits.
    OutOfRange,
    /// The listing is refused, or names an array that is not there.
    BadListing,
    /// The code has a conflict, or is not tidy.
    BadCode,
    /// The words that follow are not as many as the shape has.
    WrongCount,
}

/// Why a text is none of a saved state. Lines count from 1.
#[derive(Clone, Copy, Debug, PartialEq, Eq, Error)]
pub enum SavedError {
    /// The line has no form that may stand there, or says again what was said; or the text ends too
    /// soon, or is too long.
    #[error("line {0} has no form that may stand there")]
    NoSuchForm(u32),
    /// A number is out of its range, or the arrays are past their limits.
    #[error("a number in line {0} is out of its range")]
    OutOfRange(u32),
    /// The listing after the line is refused, or names an array that is not there.
    #[error("the listing behind line {0} is none for these arrays")]
    BadListing(u32),
    /// The code after the line has a conflict, or is not tidy.
    #[error("the code behind line {0} may not be run again")]
    BadCode(u32),
    /// The words after the line are not as many as the shape has.
    #[error("the words behind line {0} are not as many as the shape has")]
    WrongCount(u32),
    /// Memory was refused.
    #[error("out of memory")]
    NoMemory,
}

impl Fault {
    /// Its number, from 1 to 5.
    pub fn number(self) -> u32
        ensures { result ≡ fault_number self }
    {
        match self {
            Fault::NoSuchForm => 1,
            Fault::OutOfRange => 2,
            Fault::BadListing => 3,
            Fault::BadCode => 4,
            Fault::WrongCount => 5,
        }
    }

    /// The refusal for the fault at a line.
    pub(crate) fn at(self, line: u32) -> SavedError
        ensures { result ≡ refusal_at self line }
    {
        match self {
            Fault::NoSuchForm => SavedError::NoSuchForm(line),
            Fault::OutOfRange => SavedError::OutOfRange(line),
            Fault::BadListing => SavedError::BadListing(line),
            Fault::BadCode => SavedError::BadCode(line),
            Fault::WrongCount => SavedError::WrongCount(line),
        }
    }
}

impl SavedError {
    /// The refusal where the listing after a line is refused.
    pub(crate) fn for_listing(line: u32, error: ListingError) -> SavedError
        ensures { result ≡ refusal_behind line error }
    {
        match error {
            ListingError::NoSuchForm(_)
            | ListingError::OutOfRange(_)
            | ListingError::NotForward(_)
            | ListingError::NoEnd(_)
            | ListingError::WrongRoom(_)
            | ListingError::NotThere(_) => SavedError::BadListing(line),
            ListingError::NoMemory => SavedError::NoMemory,
        }
    }

    /// The number of the fault, from 1 to 5; 0 where memory was refused.
    pub fn number(self) -> u32
        ensures { result ≡ number_of self }
    {
        match self {
            SavedError::NoSuchForm(_) => 1,
            SavedError::OutOfRange(_) => 2,
            SavedError::BadListing(_) => 3,
            SavedError::BadCode(_) => 4,
            SavedError::WrongCount(_) => 5,
            SavedError::NoMemory => 0,
        }
    }

    /// The line of the fault, from 1; 0 where memory was refused.
    pub fn line(self) -> u32
        ensures { result ≡ line_of self }
    {
        match self {
            SavedError::NoSuchForm(line)
            | SavedError::OutOfRange(line)
            | SavedError::BadListing(line)
            | SavedError::BadCode(line)
            | SavedError::WrongCount(line) => line,
            SavedError::NoMemory => 0,
        }
    }
}

impl From<NoMemory> for SavedError {
    ghost use Rattle.std.specs.Prelude.{◌≡◌};
    ghost use Rattle.ppm_saved_reader.specs.declared.saved_error.SavedError.TheVariants.{NoMemory};

    ghost from_gives = { λ _ e. e ≡ NoMemory };

    fn from(_: NoMemory) -> Self {
        SavedError::NoMemory
    }
}

impl<T: Drop> From<AllocFailed<T>> for SavedError {
    ghost use Rattle.std.specs.Prelude.{◌≡◌};
    ghost use Rattle.ppm_saved_reader.specs.declared.saved_error.SavedError.TheVariants.{NoMemory};

    ghost from_gives = { λ _ e. e ≡ NoMemory };

    fn from(_: AllocFailed<T>) -> Self {
        SavedError::NoMemory
    }
}

impl From<AllocError> for SavedError {
    ghost use Rattle.std.specs.Prelude.{◌≡◌};
    ghost use Rattle.ppm_saved_reader.specs.declared.saved_error.SavedError.TheVariants.{NoMemory};

    ghost from_gives = { λ _ e. e ≡ NoMemory };

    fn from(_: AllocError) -> Self {
        SavedError::NoMemory
    }
}
