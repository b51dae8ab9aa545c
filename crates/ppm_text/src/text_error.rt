//! Why a text is not lexed into tokens.
ghost use Rattle.std.specs.Prelude.{◌≡◌};
ghost use Rattle.ppm_text.specs.ErrorNumbers.{number_of, place_of};

use std::alloc::{AllocError, AllocFailed};
use thiserror::Error;

/// Why a text is not lexed into tokens. Places count bytes from 0.
#[derive(Clone, Copy, Debug, PartialEq, Eq, Error)]
pub enum TextError {
    /// More bytes than this number, 1048576.
    #[error("the text has more than {0} bytes")]
    TooLong(u32),
    /// The byte at the place is above 127, also where it is in a comment.
    #[error("the byte at {0} is not of ASCII")]
    NotAscii(u32),
    /// At the place no token, blank or comment begins.
    #[error("nothing begins at {0}")]
    BadChar(u32),
    /// The number that begins at the place is above 9223372036854775807.
    #[error("the number at {0} is too big")]
    NumberTooBig(u32),
    /// The name that begins at the place has more than 32 bytes.
    #[error("the name at {0} is too long")]
    NameTooLong(u32),
    /// Memory was refused.
    #[error("out of memory")]
    NoMemory,
}

impl TextError {
    /// The number of the fault: 1 `NotAscii`, 2 `BadChar`, 3 `NumberTooBig`, 4 `NameTooLong`, 5
    /// `TooLong`; 0 where memory was refused.
    pub fn number(self) -> u32
        ensures { result ≡ number_of self }
    {
        match self {
            TextError::NotAscii(_) => 1,
            TextError::BadChar(_) => 2,
            TextError::NumberTooBig(_) => 3,
            TextError::NameTooLong(_) => 4,
            TextError::TooLong(_) => 5,
            TextError::NoMemory => 0,
        }
    }

    /// The place of the fault, counted in bytes from 0; 1048576 for `TooLong`, 0 where memory was
    /// refused.
    pub fn place(self) -> u32
        ensures { result ≡ place_of self }
    {
        match self {
            TextError::NotAscii(place)
            | TextError::BadChar(place)
            | TextError::NumberTooBig(place)
            | TextError::NameTooLong(place)
            | TextError::TooLong(place) => place,
            TextError::NoMemory => 0,
        }
    }
}

impl From<AllocError> for TextError {
    ghost use Rattle.std.specs.Prelude.{◌≡◌};
    ghost use Rattle.ppm_text.specs.declared.text_error.TextError.TheVariants.{NoMemory};

    ghost from_gives = { λ _ e. e ≡ NoMemory };

    fn from(_: AllocError) -> Self {
        TextError::NoMemory
    }
}

impl<T: Drop> From<AllocFailed<T>> for TextError {
    ghost use Rattle.std.specs.Prelude.{◌≡◌};
    ghost use Rattle.ppm_text.specs.declared.text_error.TextError.TheVariants.{NoMemory};

    ghost from_gives = { λ _ e. e ≡ NoMemory };

    fn from(_: AllocFailed<T>) -> Self {
        TextError::NoMemory
    }
}
