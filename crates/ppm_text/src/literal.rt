//! A number as a text writes it.
ghost use Rattle.std.specs.Prelude.{◌≡◌, ◌<◌, pos};
ghost use Rattle.ppm_words.specs.Limits.{value_bound};

use std::marker::Model;

/// The greatest number that a text may write, 2^63 - 1.
pub(crate) const NUMBER_LIMIT: u64 = (1 << 63) - 1;

/// A number from 0 to 2^63 - 1.
#[derive(Debug, Drop)]
pub struct Literal {
    value: u64,
}

impl Model for Literal {
    ghost use Rattle.std.specs.Prelude.{ℕ, ◌<◌};
    ghost use Rattle.ppm_words.specs.Limits.{value_bound};

    ghost Value = { ℕ };

    ghost view = { λ s. s.value };

    ghost invariant = { λ s. s.value < value_bound };
}

impl Literal {
    /// The number with this value.
    pub(crate) fn from_u64(value: u64) -> Self
        requires { value < value_bound }
        ensures { result ≡ value }
    {
        Literal { value }
    }

    /// Its value, from 0 to 2^63 - 1.
    pub fn to_u64(&self) -> u64
        ensures value { result ≡ self.now }
        ensures limit { result < value_bound }
    {
        self.value
    }

    /// Its value, from 0 to 2^63 - 1.
    pub fn to_i64(&self) -> i64
        ensures value { result ≡ pos self.now }
        ensures limit { self.now < value_bound }
    {
        self.value as i64
    }
}
