//! What comes of the steps of a capsule, and of steps in a row.
ghost use Rattle.std.specs.Prelude.{◌≡◌, ◌<◌, ◌+◌, ◌^◌, ◌||◌, false};
ghost use Rattle.ppm_stretch.specs.Steady.{looks_behind};

use ppm_cells::Restart;
use ppm_code::Reached;

/// What came of the load of a location: it isn't there, the watcher refused, or the word that was
/// found.
#[derive(Clone, Copy, Debug, PartialEq, Eq)]
pub enum Load {
    Gone,
    Refused,
    Found(u64),
}

/// What came of the store of a location.
#[derive(Clone, Copy, Debug, PartialEq, Eq)]
pub enum Store {
    Gone,
    Refused,
    Stored,
}

/// What came of an instruction.
#[derive(Clone, Copy, Debug, PartialEq, Eq)]
pub enum Way {
    /// A step was made, and this instruction follows.
    Made(usize),
    /// None was: the capsule ends here, or asks for words. This instruction is the one after it.
    Stops(usize, Reached),
    /// What comes next isn't there.
    Breaks,
    /// The watcher refused what it was told of a step.
    Refused,
}

/// How far a capsule came: so many steps were made, each of them work, and it stands there.
#[derive(Clone, Copy, Debug, PartialEq, Eq)]
pub struct Stretch {
    pub made: u64,
    pub way: Way,
}

/// What came of the beginning of a capsule of a frame.
#[derive(Clone, Copy, Debug, PartialEq, Eq)]
pub enum Begun {
    /// The finish word was set: the processor is done.
    Over,
    /// The frame's header names this capsule.
    Entered(u64),
    /// The watcher refused; whether the processor is still to take a step.
    Refused(bool),
}

/// What came of the stores with which a frame goes round.
#[derive(Clone, Copy, Debug, PartialEq, Eq)]
pub enum Turned {
    /// After so many of them the next one isn't there.
    Breaks(u64),
    /// Both were made.
    Round,
    /// The watcher refused.
    Refused,
}

/// What came of a store of an end.
#[derive(Clone, Copy, Debug, PartialEq, Eq)]
pub enum EndStep {
    /// It was made, and the next one comes.
    Stored,
    /// The restart word was stored: the place goes on with this.
    Installed(Restart),
    /// It isn't there.
    Gone,
    /// The watcher refused.
    Refused,
}

/// So many stores of an end were made, the restart word among them, and what came of the last, or of
/// the one after it.
#[derive(Clone, Copy, Debug, PartialEq, Eq)]
pub struct Ended {
    pub made: u64,
    pub step: EndStep,
}

/// Where a processor stands that does not go round.
#[derive(Clone, Copy, Debug, PartialEq, Eq)]
pub enum Halt {
    /// It is done.
    Done,
    /// It has met broken words.
    Broken,
    /// Before this instruction of the capsule with this number.
    Midway(u64, usize),
    /// In the capsule with this number, at an end or where it asks for words; after that comes
    /// this instruction.
    Stopped(u64, usize, Reached),
    /// In the capsule with this number, which asks for more words than its pool has.
    Full(u64),
}

/// What came of the load of a room counter.
#[derive(Clone, Copy, Debug, PartialEq, Eq)]
pub enum Room {
    /// The words lie at this address.
    Block(u32),
    /// The pool hasn't so many.
    Full,
    /// The counter isn't in the pool.
    Broken,
}

/// How a round of a frame ended.
#[derive(Clone, Copy, Debug, PartialEq, Eq)]
pub enum RoundEnd {
    /// Before the next capsule of the frame.
    Round,
    /// The processor stands there.
    Halts(Halt),
    /// The watcher refused; whether the processor is still to take a step.
    Refused(bool),
}

/// A round of a frame: so many steps, of which so many were work, and how it ended.
#[derive(Clone, Copy, Debug, PartialEq, Eq)]
pub struct Circuit {
    pub made: u64,
    pub work: u64,
    pub end: RoundEnd,
}

/// How capsules of a frame ended.
#[derive(Clone, Copy, Debug, PartialEq, Eq)]
pub enum FrameEnd {
    /// The place goes on with this restart.
    Installed(Restart),
    /// The processor has been put where it stands.
    Stands,
    /// The watcher refused; whether the processor is still to take a step.
    Refused(bool),
}

/// Capsules of a frame: so many steps, of which so many were work, so many looks after the last of
/// these, and how they ended.
#[derive(Clone, Copy, Debug, PartialEq, Eq)]
pub struct Framed {
    pub made: u64,
    pub work: u64,
    pub looks: u64,
    pub end: FrameEnd,
}

/// How the row of a restart of work ended, with the load of the finish word before it.
#[derive(Clone, Copy, Debug, PartialEq, Eq)]
pub enum RowEnd {
    /// The place goes on with this restart.
    Installed(Restart),
    /// It has met broken words.
    Broken,
    /// The finish word was set: the processor is done.
    Over,
    /// The watcher refused; whether the processor is still to take a step.
    Refused(bool),
}

/// A row of work: so many steps of work after the load of the finish word, whether one was a
/// compare-and-modify, and how it ended.
#[derive(Clone, Copy, Debug, PartialEq, Eq)]
pub struct Rowed {
    pub work: u64,
    pub exchanged: bool,
    pub end: RowEnd,
}

/// What came of one step.
#[derive(Clone, Copy, Debug, PartialEq, Eq)]
pub struct OneStep {
    /// The watcher took it.
    pub fine: bool,
    /// It was a compare-and-modify.
    pub exchanged: bool,
}

/// Steps in a row.
#[derive(Clone, Copy, Debug, PartialEq, Eq)]
pub struct Steps {
    /// How many there were.
    pub made: u64,
    /// How many of them were work.
    pub work: u64,
    /// How many looks there were since the last of these, or in all.
    pub looks: u64,
    /// Whether one of them was a compare-and-modify, as that is by which a deque gets a job or the
    /// finish word is set.
    pub exchanged: bool,
    /// The watcher refused one; then the numbers say nothing.
    pub refused: bool,
}

/// No steps.
pub(crate) const NONE: Steps = Steps {
    made: 0,
    work: 0,
    looks: 0,
    exchanged: false,
    refused: false,
};

/// The watcher refused one.
pub(crate) const REFUSED: Steps = Steps {
    made: 0,
    work: 0,
    looks: 0,
    exchanged: false,
    refused: true,
};

/// Steps of which none was refused.
#[inline(always)]
pub(crate) fn row(made: u64, work: u64, looks: u64, exchanged: bool) -> Steps
    ensures { result
        ≡ record { made = made; work = work; looks = looks; exchanged = exchanged; refused = false } }
{
    Steps {
        made,
        work,
        looks,
        exchanged,
        refused: false,
    }
}

/// How many looks there are with these, since the last work.
#[inline(always)]
pub(crate) fn looks_behind(before: u64, work: u64, looks: u64) -> u64
    requires { before + looks < 2 ^ 64 }
    ensures { result ≡ looks_behind before work looks }
{
    if work == 0 { before + looks } else { looks }
}

/// Whether one of them holds.
#[inline(always)]
pub(crate) fn one_of(first: bool, second: bool) -> bool
    ensures { result ≡ (first || second) }
{
    first || second
}
