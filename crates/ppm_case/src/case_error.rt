//! Why a text is of no case.
ghost use Rattle.std.specs.Prelude.{◌≡◌, ◌+◌, ◌<◌, ◌^◌};
ghost use Rattle.ppm_listing_reader.specs.ErrorNumbers.{line_of};
ghost use Rattle.ppm_case.specs.Faults.{input_number, listing_refused};
ghost use Rattle.ppm_case.specs.declared.case_error.CaseFault.TheVariants.{OfInput, OfListing};
ghost use Rattle.ppm_case.specs.declared.case_error.CaseError.TheVariants.{Refused};

use ppm_listing_reader::{Fault, ListingError};
use ppm_words::NoMemory;
use std::alloc::{AllocError, AllocFailed};
use thiserror::Error;

/// What may be wrong with the arrays of a case.
#[derive(Clone, Copy, Debug, PartialEq, Eq)]
pub enum InputFault {
    /// The line of an array has not its form, or no line feed.
    NoSuchForm,
    /// A length, count or value is out of its range, or there are more values than the length.
    OutOfRange,
    /// The name stands in an earlier line.
    NamedTwice,
    /// There are too many arrays, or too many words in all, or the text is too long.
    TooMuch,
    /// The root names an array that is not there.
    NotThere,
}

/// What may be wrong with a case.
#[derive(Clone, Copy, Debug, PartialEq, Eq)]
pub enum CaseFault {
    /// Of its arrays.
    OfInput(InputFault),
    /// Of its listing.
    OfListing(Fault),
}

/// Why a text is of no case. Lines count from 1, in the whole text.
#[derive(Clone, Copy, Debug, PartialEq, Eq, Error)]
pub enum CaseError {
    /// The fault of a line.
    #[error("the case is refused for its line {1}")]
    Refused(CaseFault, u32),
    /// Memory was refused.
    #[error("out of memory")]
    NoMemory,
}

impl InputFault {
    /// Its number, from 1 to 5.
    pub fn number(self) -> u32
        ensures { result ≡ input_number self }
    {
        match self {
            InputFault::NoSuchForm => 1,
            InputFault::OutOfRange => 2,
            InputFault::NamedTwice => 3,
            InputFault::TooMuch => 4,
            InputFault::NotThere => 5,
        }
    }
}

impl CaseError {
    /// The refusal where a line has a fault of the arrays.
    pub fn of_input(fault: InputFault, line: u32) -> CaseError
        ensures { result ≡ Refused (OfInput fault) line }
    {
        CaseError::Refused(CaseFault::OfInput(fault), line)
    }

    /// The refusal where the listing after so many lines is refused.
    pub fn of_listing(lines: u32, error: ListingError) -> CaseError
        requires { lines + line_of error < 2 ^ 32 }
        ensures { result ≡ listing_refused lines error }
    {
        match error {
            ListingError::NoSuchForm(line) => CaseError::at_line(Fault::NoSuchForm, lines + line),
            ListingError::OutOfRange(line) => CaseError::at_line(Fault::OutOfRange, lines + line),
            ListingError::NotForward(line) => CaseError::at_line(Fault::NotForward, lines + line),
            ListingError::NoEnd(line) => CaseError::at_line(Fault::NoEnd, lines + line),
            ListingError::WrongRoom(line) => CaseError::at_line(Fault::WrongRoom, lines + line),
            ListingError::NotThere(line) => CaseError::at_line(Fault::NotThere, lines + line),
            ListingError::NoMemory => CaseError::NoMemory,
        }
    }

    /// The refusal where a line has a fault of the listing.
    fn at_line(fault: Fault, line: u32) -> CaseError
        ensures { result ≡ Refused (OfListing fault) line }
    {
        CaseError::Refused(CaseFault::OfListing(fault), line)
    }
}

impl From<NoMemory> for CaseError {
    ghost use Rattle.std.specs.Prelude.{◌≡◌};
    ghost use Rattle.ppm_case.specs.declared.case_error.CaseError.TheVariants.{NoMemory};

    ghost from_gives = { λ _ e. e ≡ NoMemory };

    fn from(_: NoMemory) -> Self {
        CaseError::NoMemory
    }
}

impl<T: Drop> From<AllocFailed<T>> for CaseError {
    ghost use Rattle.std.specs.Prelude.{◌≡◌};
    ghost use Rattle.ppm_case.specs.declared.case_error.CaseError.TheVariants.{NoMemory};

    ghost from_gives = { λ _ e. e ≡ NoMemory };

    fn from(_: AllocFailed<T>) -> Self {
        CaseError::NoMemory
    }
}

impl From<AllocError> for CaseError {
    ghost use Rattle.std.specs.Prelude.{◌≡◌};
    ghost use Rattle.ppm_case.specs.declared.case_error.CaseError.TheVariants.{NoMemory};

    ghost from_gives = { λ _ e. e ≡ NoMemory };

    fn from(_: AllocError) -> Self {
        CaseError::NoMemory
    }
}
