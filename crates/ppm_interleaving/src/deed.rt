//! Whose turn it is, and what strands do that others see.
ghost use Rattle.std.specs.Prelude.{◌≡◌};
ghost use Rattle.ppm_interleaving.specs.Turns.{strand_of};

use ppm_depth::Finish;

/// A turn. Strands count from 0 in the order of forks.
#[derive(Clone, Copy, Debug, PartialEq, Eq)]
pub enum Turn {
    /// A strand makes a step.
    Step { strand: u32 },
    /// A soft fault befalls a strand.
    Fault { strand: u32 },
}

impl Turn {
    /// Whose turn it is.
    pub fn strand(self) -> u32
        ensures { result ≡ strand_of self }
    {
        match self {
            Turn::Step { strand } => strand,
            Turn::Fault { strand } => strand,
        }
    }
}

/// What a turn does that other strands see.
#[derive(Clone, Copy, Debug, PartialEq, Eq)]
pub enum Deed {
    /// An array word is changed.
    Changed { word: u64, was: u64, is: u64 },
    /// So many branches begin; they have the next numbers, from `first` on.
    Forked { first: u64, branches: u64 },
    /// The strand is over.
    Finished(Finish),
}
