//! What a command answers.
use crate::case::{InputRefusal, UntidyStore};
use crate::conflict::{Conflict, ListingRefusal};
use crate::counts::Counts;
use crate::gap::Gap;
use crate::race::Race;
use crate::ran::Ran;
use crate::refusal::Refusal;
use crate::refused::Refused;
use crate::run_counts::RunCounts;
use crate::saved::SavedRefusal;
use crate::sums::Sums;
use crate::sweep::{Came, Difference, Sweep};
use crate::tally::Tally;
use ppm_words::{Items, NamedArray, Trap};

/// What a command answers, before any of it is written.
#[derive(Debug, Drop)]
pub enum Answer {
    /// The run ended with these arrays, in the order in which the program declares them.
    Ended(Items<NamedArray>),
    /// The run ended by a trap in this line of the source; lines count from 1.
    Trapped(Trap, u32),
    /// The run ended by a trap in this line of the source, and these notes explain it; lines count
    /// from 1.
    TrapExplained(Trap, u32, Items<u8>),
    /// The replay ended with these arrays, in the order in which the program declares them, and
    /// with this tally.
    EndedWith(Items<NamedArray>, Tally),
    /// The replay ended by a trap in this line of the source, and with this tally; lines count from
    /// 1.
    TrappedWith(Trap, u32, Tally),
    /// The replay did not end within so many acts.
    Unfinished(u64),
    /// The replay came to this, and this was counted in its run.
    ReplayedWith(Came, RunCounts),
    /// The run came to this, and this was counted in it.
    RanWith(Ran, RunCounts),
    /// The run did not end within so many turns.
    NotWithin(u64),
    /// The run did not end within so many turns, and these notes tell where it stands after them.
    StandExplained(u64, Items<u8>),
    /// This processor has no turns left, and the run has not ended; processors count from 0.
    OutOfTurns(u32),
    /// The pool of this place has no room for a block that the run asks for; places count from 0.
    OutOfRoom(u32),
    /// The words of the run are broken at this place; places count from 0, and 64 is for a place
    /// that isn't known, or for a saved finish word that stands for nothing.
    Broken(u32),
    /// The run of the program's own example ended with these sums.
    Summed(Sums),
    /// The program of the text is compiled to the code with this listing.
    Listed(Items<u8>),
    /// The state in which the run of the program was stopped has this text.
    Saved(Items<u8>),
    /// The run of a schedule is told by this text.
    Traced(Items<u8>),
    /// The state of the saved text is told by this text.
    Shown(Items<u8>),
    /// The text is refused for this reason.
    SourceRefused(Refusal),
    /// The text is refused for this reason, and these notes explain it.
    Explained(Refused, Items<u8>),
    /// The text is the listing of a code without conflicts.
    Accepted,
    /// The text is the listing of a code with this conflict.
    Conflicting(Conflict),
    /// The text is the listing of a code with this gap.
    Gapped(Gap),
    /// The text is the listing of no code, for this fault.
    ListingRefused(ListingRefusal),
    /// The text is that of no saved state, for this fault.
    SavedRefused(SavedRefusal),
    /// The depth-first run of the case ended with these arrays, in the order of its lines, and with
    /// these counts.
    Counted(Items<NamedArray>, Counts),
    /// The depth-first run of the case ended by a trap with this line of the source, and with these
    /// counts; lines count from 1.
    TrappedAfter(Trap, u32, Counts),
    /// The code of the case is sound with its input, and its depth-first run has these counts.
    Sound(Counts),
    /// The depth-first run of the case did not end within so many capsules.
    NotWithinCapsules(u64),
    /// The code of the case has this race with its input.
    Raced(Race),
    /// The code of the case has this store, which is not tidy.
    Untidy(UntidyStore),
    /// The code of the case has this conflict; the two lines of the text are those of the
    /// instruction that reads and of the one that writes, from 1.
    ConflictingAt(Conflict, u64, u64),
    /// The text is no case, for this fault of an array line or of its root.
    InputRefused(InputRefusal),
    /// All runs of the sweep came to what the depth-first run comes to, and it counts this.
    Swept(Sweep),
    /// This run of the sweep came to something else.
    Differs(Difference),
    /// The run of strands came to this, and what capsules had settled stood after each of its turns.
    /// These lines tell the turns.
    Stood(Items<u8>, Came),
    /// The run of strands came to this, and some change that a capsule had settled did not stand.
    /// The first lines tell the turns, the last ones the first such change.
    Fell(Items<u8>, Came, Items<u8>),
    /// In none of so many runs of strands some change that a capsule had settled did not stand.
    AllStood(u32),
    /// The words give no command.
    WordsRefused,
    /// The plan or schedule among the words has the fault of this number, from 1 to 4.
    PlanRefused(u32),
    /// The source of bytes failed.
    ReadFault,
    /// Memory was refused.
    NoMemory,
}
