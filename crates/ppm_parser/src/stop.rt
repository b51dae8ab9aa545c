//! Why the parser's functions go no further.
ghost use Rattle.std.specs.Prelude.{◌≡◌};
ghost use Rattle.ppm_parser.specs.Faults.{in_text};

use crate::limit::Limit;
use crate::syntax_error::SyntaxError;
use ppm_words::NoMemory;
use std::alloc::{AllocError, AllocFailed};

/// Why the parser goes no further: at a token with its place, or at the end of the tokens.
#[derive(Clone, Copy, Debug, PartialEq, Eq)]
pub enum Stop {
    /// The token cannot come.
    Expected(u32),
    /// The tokens end.
    Ended,
    /// With the token too many openings are open.
    TooDeep(u32),
    /// The token passes the limit.
    TooMany(u32, Limit),
    /// Memory was refused.
    NoMemory,
}

impl Stop {
    /// The refusal of a text of so many bytes.
    pub fn in_text(self, text_len: u32) -> SyntaxError
        ensures { result ≡ in_text text_len self }
    {
        match self {
            Stop::Expected(place) => SyntaxError::Expected(place),
            Stop::Ended => SyntaxError::Ended(text_len),
            Stop::TooDeep(place) => SyntaxError::TooDeep(place),
            Stop::TooMany(place, limit) => SyntaxError::TooMany(place, limit),
            Stop::NoMemory => SyntaxError::NoMemory,
        }
    }
}

impl From<AllocError> for Stop {
    ghost use Rattle.std.specs.Prelude.{◌≡◌};
    ghost use Rattle.ppm_parser.specs.declared.stop.Stop.TheVariants as stop;

    ghost from_gives = { λ _ e. e ≡ stop.NoMemory };

    fn from(_: AllocError) -> Self {
        Stop::NoMemory
    }
}

impl<T: Drop> From<AllocFailed<T>> for Stop {
    ghost use Rattle.std.specs.Prelude.{◌≡◌};
    ghost use Rattle.ppm_parser.specs.declared.stop.Stop.TheVariants as stop;

    ghost from_gives = { λ _ e. e ≡ stop.NoMemory };

    fn from(_: AllocFailed<T>) -> Self {
        Stop::NoMemory
    }
}

impl From<NoMemory> for Stop {
    ghost use Rattle.std.specs.Prelude.{◌≡◌};
    ghost use Rattle.ppm_parser.specs.declared.stop.Stop.TheVariants as stop;

    ghost from_gives = { λ _ e. e ≡ stop.NoMemory };

    fn from(_: NoMemory) -> Self {
        Stop::NoMemory
    }
}
