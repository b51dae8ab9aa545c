//! Why the compiler refuses a program.
ghost use Rattle.std.specs.Prelude.{◌≡◌};
ghost use Rattle.ppm_cut_bounds.specs.Refusals.{number_of, place_of};

use ppm_words::NoMemory;
use thiserror::Error;

/// Why the compiler refuses a program. Procedures are those of the text, counted from 0.
#[derive(Clone, Copy, Debug, PartialEq, Eq, Error)]
pub enum BoundError {
    /// The first procedure that has more than 24 slots, itself or in the hidden procedure of an
    /// `each`.
    #[error("too many slots in procedure {0}")]
    TooManySlots(u32),
    /// No procedure has too many slots; the first with an `each` whose block names more than 10
    /// names of outside.
    #[error("too many names caught in procedure {0}")]
    TooManyCaught(u32),
    /// Neither; four capsules for each statement and two for each procedure are more than 65,535.
    #[error("too many capsules")]
    TooManyCapsules,
    /// Memory was refused.
    #[error("out of memory")]
    NoMemory,
}

impl BoundError {
    /// The number of the fault: 1 for slots, 2 for capsules, 3 for names caught; 0 where memory was
    /// refused.
    pub fn number(self) -> u32
        ensures { result ≡ number_of self }
    {
        match self {
            BoundError::TooManySlots(_) => 1,
            BoundError::TooManyCapsules => 2,
            BoundError::TooManyCaught(_) => 3,
            BoundError::NoMemory => 0,
        }
    }

    /// The procedure that passes the bound, counted from 0; 0 where none is named.
    pub fn place(self) -> u32
        ensures { result ≡ place_of self }
    {
        match self {
            BoundError::TooManySlots(procedure) | BoundError::TooManyCaught(procedure) => procedure,
            BoundError::TooManyCapsules | BoundError::NoMemory => 0,
        }
    }
}

impl From<NoMemory> for BoundError {
    ghost use Rattle.std.specs.Prelude.{◌≡◌};
    ghost use Rattle.ppm_cut_bounds.specs.declared.bound_error.BoundError.TheVariants as error;

    ghost from_gives = { λ _ e. e ≡ error.NoMemory };

    fn from(_: NoMemory) -> Self {
        BoundError::NoMemory
    }
}
