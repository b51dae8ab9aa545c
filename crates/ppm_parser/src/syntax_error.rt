//! Why tokens have no tree.
ghost use Rattle.std.specs.Prelude.{◌≡◌};
ghost use Rattle.ppm_parser.specs.SyntaxErrorNumbers.{number_of, place_of};

use crate::limit::Limit;
use ppm_words::NoMemory;
use std::alloc::{AllocError, AllocFailed};
use thiserror::Error;

/// Why tokens have no tree. Places count bytes from 0.
#[derive(Clone, Copy, Debug, PartialEq, Eq, Error)]
pub enum SyntaxError {
    /// No text of the grammar begins with the tokens up to this one, and it is the first such.
    #[error("a token that cannot come at {0}")]
    Expected(u32),
    /// The tokens end where the text does, at this place, and a text of the grammar goes on from
    /// them.
    #[error("the text ends at {0}")]
    Ended(u32),
    /// With this token more than 32 openings are open.
    #[error("too deep at {0}")]
    TooDeep(u32),
    /// This token passes the limit.
    #[error("too many at {0}")]
    TooMany(u32, Limit),
    /// Memory was refused.
    #[error("out of memory")]
    NoMemory,
}

impl SyntaxError {
    /// The number of the fault: 1 `Expected`, 2 `Ended`, 3 `TooDeep`, 4 `TooMany`; 0 where memory
    /// was refused.
    pub fn number(self) -> u32
        ensures { result ≡ number_of self }
    {
        match self {
            SyntaxError::Expected(_) => 1,
            SyntaxError::Ended(_) => 2,
            SyntaxError::TooDeep(_) => 3,
            SyntaxError::TooMany(_, _) => 4,
            SyntaxError::NoMemory => 0,
        }
    }

    /// The place of the fault, counted in bytes from 0; 0 where memory was refused.
    pub fn place(self) -> u32
        ensures { result ≡ place_of self }
    {
        match self {
            SyntaxError::Expected(place)
            | SyntaxError::Ended(place)
            | SyntaxError::TooDeep(place)
            | SyntaxError::TooMany(place, _) => place,
            SyntaxError::NoMemory => 0,
        }
    }
}
