//! How a run has ended, by its finish word.
ghost use Rattle.std.specs.Prelude.{◌≡◌};
ghost use Rattle.ppm_cells.specs.Ending.{ending_of};

use crate::finish::Finish;

/// What the finish word of a machine says.
#[derive(Clone, Copy, Debug, PartialEq, Eq)]
pub enum Ending {
    /// It is 0: no processor has said anything.
    NotYet,
    /// The run has come to this.
    With(Finish),
    /// No finish packs to this word, so it comes of no run.
    Unknown,
}

impl Ending {
    ghost use Rattle.std.specs.Prelude.{◌≡◌};
    ghost use Rattle.ppm_cells.specs.Ending.{ending_of};

    /// What a finish word says.
    pub fn of_word(word: u64) -> Ending
        ensures { result ≡ ending_of word }
    {
        if word == 0 {
            return Ending::NotYet;
        }
        match Finish::unpack(word) {
            Some(finish) => Ending::With(finish),
            None => Ending::Unknown,
        }
    }
}
