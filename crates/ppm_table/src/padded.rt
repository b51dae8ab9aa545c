//! The words of a table, after the padding.
ghost use Rattle.std.specs.Prelude.{◌≡◌, IfOk, drop};
ghost use Rattle.ppm_table.specs.Padding.{padding};

use crate::touching::PADDING;
use ppm_words::NoMemory;
use std::marker::Model;

/// Words with the padding in front of them. It is seen as the words alone.
#[derive(Drop)]
pub struct Padded {
    all: Vec<u64>,
}

impl Model for Padded {
    ghost use Rattle.std.specs.Prelude.{List, ℕ, drop};
    ghost use Rattle.ppm_table.specs.Padding.{padding};

    ghost Value = { List ℕ };

    ghost view = { λ p. drop padding p.all.items };
}

impl Padded {
    /// These words after the padding, moved in place where there is room after them.
    pub(crate) fn behind(words: Vec<u64>) -> Result<Padded, NoMemory>
        ensures { IfOk result (λ padded. padded ≡ words.items) }
    {
        let mut all = words;
        let count = all.len();
        all.resize(count + PADDING, 0)?;
        all.copy_within(0..count, PADDING);
        Ok(Padded { all })
    }

    /// All words, with those of the padding.
    pub(crate) fn all(&self) -> &[u64]
        ensures { drop padding result.now ≡ self.now }
    {
        &self.all
    }
}
