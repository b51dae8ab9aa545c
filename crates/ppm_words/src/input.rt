//! What a run starts from.
ghost use Rattle.std.specs.Prelude.{◌≡◌};
ghost use Rattle.ppm_words.specs.Inputs.{IsInput};

use crate::named_array::NamedArray;
use std::marker::Model;

/// The arrays that a run starts from: 64 at most, with 4,194,304 values at most in all.
#[derive(Debug, Drop)]
pub struct Input {
    arrays: Vec<NamedArray>,
}

impl Model for Input {
    ghost use Rattle.std.specs.Prelude.{List};
    ghost use Rattle.ppm_words.specs.declared.named_array.NamedArray.{NamedArray};
    ghost use Rattle.ppm_words.specs.Inputs.{IsInput};

    ghost Value = { List NamedArray };

    ghost view = { λ i. i.arrays.items };

    ghost invariant = { λ i. IsInput i.arrays.items };
}

impl Input {
    /// The input of these arrays, in their order.
    pub fn from_vec(arrays: Vec<NamedArray>) -> Self
        requires { IsInput arrays.items }
        ensures { result ≡ arrays.items }
    {
        Input { arrays }
    }

    /// The arrays, in their order.
    pub fn arrays(&self) -> &[NamedArray]
        ensures value { result.now ≡ self.now }
        ensures limits { IsInput self.now }
    {
        &self.arrays
    }
}
