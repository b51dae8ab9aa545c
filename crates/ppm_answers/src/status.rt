//! How the program ends.
ghost use Rattle.std.specs.Prelude.{◌≡◌};
ghost use Rattle.ppm_answers.specs.Statuses.{number_of};

/// How the program ends, by the number that it hands to its caller.
#[derive(Clone, Copy, Debug, PartialEq, Eq)]
pub enum Status {
    /// The run ended, and its arrays are on out; or the listing of a code is, or a trace; or `check`
    /// or `races` accepts a code, or nothing fell in runs of strands.
    Ended = 0,
    /// The run ended by a trap, which is reported on out.
    Trapped = 1,
    /// The source is refused.
    SourceRefused = 2,
    /// The words give no command, or the plan or schedule among them is refused.
    WordsRefused = 3,
    /// A processor has no turns left, or a replay has not ended within its acts.
    OutOfTurns = 4,
    /// A place has no room left.
    OutOfRoom = 5,
    /// The source of bytes failed.
    ReadFault = 7,
    /// Out or err failed, and may have a front of its text.
    WriteFault = 8,
    /// Memory was refused.
    NoMemory = 9,
    /// A code is refused: what was read is no listing or no case, or its code has a conflict, an
    /// untidy store or a race, or what a capsule of it has settled does not stand.
    CodeRefused = 10,
    /// The serial run did not end within its turns, or the depth-first run within its capsules.
    NotWithin = 11,
    /// What `resume` has read is the text of no saved state.
    SavedRefused = 12,
    /// The words of the run are broken.
    Broken = 13,
    /// A run of a sweep came to something else than the depth-first run.
    Differs = 14,
}

impl Status {
    /// The number that the program ends with, from 0 to 14.
    pub fn number(self) -> u8
        ensures { result ≡ number_of self }
    {
        self as u8
    }
}
