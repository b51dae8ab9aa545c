//! The arrays of a saved state, without their values.
ghost use Rattle.std.specs.Prelude.{◌≡◌};
ghost use Rattle.ppm_saved.specs.Names.{AreNames};

use ppm_words::Name;
use std::marker::Model;

/// An array without its values: its name, and how many words it has.
#[derive(Debug, Drop)]
pub struct NamedLength {
    pub name: Name,
    pub len: u32,
}

/// The arrays of a program without their values: 64 at most, of 4,194,304 words at most in all. No
/// name is a keyword, and no two are the same.
#[derive(Debug, Drop)]
pub struct Names {
    arrays: Vec<NamedLength>,
}

impl Model for Names {
    ghost use Rattle.std.specs.Prelude.{List};
    ghost use Rattle.ppm_saved.specs.declared.names.NamedLength.{NamedLength};
    ghost use Rattle.ppm_saved.specs.Names.{AreNames};

    ghost Value = { List NamedLength };

    ghost view = { λ n. n.arrays.items };

    ghost invariant = { λ n. AreNames n.arrays.items };
}

impl Names {
    /// These arrays, in their order.
    pub fn from_vec(arrays: Vec<NamedLength>) -> Self
        requires { AreNames arrays.items }
        ensures { result ≡ arrays.items }
    {
        Names { arrays }
    }

    /// The arrays, in their order.
    pub fn as_slice(&self) -> &[NamedLength]
        ensures value { result.now ≡ self.now }
        ensures names { AreNames self.now }
    {
        &self.arrays
    }
}
