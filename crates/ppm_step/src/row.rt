//! The rows: what is left of a capsule of the scheduler, up to its end.
ghost use Rattle.std.specs.Prelude.{◌≡◌, ◌+◌};
ghost use Rattle.ppm_step.specs.Rows.{left_begins};
ghost use Rattle.ppm_step.specs.declared.row.Row.TheVariants.{Now};
ghost use Rattle.ppm_step.specs.declared.row.Then.TheVariants.{Load, Broken};
ghost use Rattle.ppm_step.specs.Facts.{IsAddress};

use crate::content::Content;
use ppm_cells::{Cell, Entry, Finish, Holder, LinkKind, Restart, RestartKind, Side, left_frame};

/// Who carries a place on, which place, and its restart word as it was read.
#[derive(Clone, Copy, Debug, PartialEq, Eq)]
pub struct Seat {
    pub own: u32,
    pub place: u32,
    pub restart: Restart,
}

/// A load of a row, by what is looked for. Frames and blocks are addresses.
#[derive(Clone, Copy, Debug, PartialEq, Eq)]
pub enum Point {
    /// The number of the capsule with which a frame goes on.
    Header {
        frame: u32,
        copy: u32,
    },
    /// The link of a block that is built.
    BumpLink {
        block: u32,
    },
    /// Whether one strand runs both branches of the block.
    PushOrder {
        block: u32,
    },
    /// The entry above the bottom.
    PushAbove {
        block: u32,
    },
    /// The entry at the bottom.
    PushBottom {
        block: u32,
    },
    /// The link of a frame that is over.
    UnwindLink {
        frame: u32,
    },
    /// Its outcome.
    UnwindOutcome {
        frame: u32,
        link: LinkKind,
    },
    /// The slot and one more into which the frame's value goes in the frame `to`, or 0; after it
    /// comes the right branch of a block, if one is named, and else `to` goes on with this copy.
    Target {
        frame: u32,
        to: u32,
        copy: u32,
        right_of: Option<u32>,
    },
    /// The value for that slot.
    GivenValue {
        frame: u32,
        to: u32,
        copy: u32,
        target: u64,
        right_of: Option<u32>,
    },
    /// Which branch of a block came first.
    JoinOrder {
        block: u32,
        side: Side,
    },
    /// The link of a block whose last branch has come.
    JoinLink {
        block: u32,
    },
    /// The outcome of its left branch.
    JoinLeft {
        block: u32,
        to: u32,
        copy: u32,
    },
    /// And of its right one.
    JoinRight {
        block: u32,
        to: u32,
        copy: u32,
        left: Finish,
    },
    /// Where the frame of its right branch lies, for the value of that frame.
    RightFrame {
        block: u32,
        to: u32,
        copy: u32,
    },
    /// Where the frame of the right branch lies, which is to begin with this bottom.
    Offset {
        block: u32,
        bottom: u32,
    },
    /// The entry below the bottom.
    PopBelow,
    /// The entry below the bottom, once it was got back.
    PopAgain {
        block: u32,
    },
    /// The entry at the bottom, which is to be emptied.
    PopAbove {
        block: u32,
    },
    /// Who holds the victim.
    SeekHolder,
    /// Whether that processor is dead.
    SeekDead {
        victim: u32,
        holder: Holder,
    },
    /// The top of the victim's deque.
    SeekTop {
        victim: u32,
    },
    /// The entry there.
    SeekEntry {
        victim: u32,
        slot: u32,
    },
    /// Whether the victim is closed, whose entry there is local.
    SeekClosed {
        victim: u32,
        slot: u32,
        entry: Entry,
    },
    /// The entry that is to be taken.
    StealMessage {
        victim: u32,
        slot: u32,
    },
    /// The entry that the place `by` was after in this slot.
    TakenMessage {
        by: u32,
        victim: u32,
        slot: u32,
    },
    /// Whether that place has taken it.
    TakenEntry {
        by: u32,
        victim: u32,
        slot: u32,
        message: Entry,
    },
    /// Where a closed place went on, whose local entry in this slot was taken; the block is that of
    /// the entry.
    ClosedRestart {
        victim: u32,
        slot: u32,
        block: u32,
    },
    /// The link of the block that the closed place had built.
    ClosedLink {
        block: u32,
    },
    /// The bottom of the closed place, which was to become a job.
    ClosedBottom {
        victim: u32,
        slot: u32,
        block: u32,
    },
    /// The bid that this place has made.
    BidMessage {
        victim: u32,
        dead: u32,
    },
    /// That bid, after the exchange.
    BidAgain {
        victim: u32,
    },
    /// Whether it stands.
    BidHolder {
        victim: u32,
        message: Holder,
    },
}

/// What follows a word step of a row.
#[derive(Clone, Copy, Debug, PartialEq, Eq)]
pub enum Then {
    /// A load.
    Load(Point),
    /// The restart word is stored, and the place goes on with it.
    Install(Restart),
    /// As `Install`, with the push of a block, whose fork this is.
    Fork { block: u32 },
    /// As `Install`, with the right frame of a block, which is taken by this.
    Begin { block: u32, frame: u32, bottom: u32 },
    /// The carry word is stored, and the processor goes on with that place.
    Move { place: u32 },
    /// The capsule with this number begins.
    Enter { capsule: u64 },
    /// The place goes on with the restart word that it has.
    Again,
    /// Words were met with which no row goes on.
    Broken,
}

/// What is left of a row.
#[derive(Clone, Copy, Debug, PartialEq, Eq)]
pub enum Row {
    Now(Then),
    Store {
        cell: Cell,
        content: Content,
        then: Then,
    },
    /// A compare-and-modify, from `old` to `new`.
    Exchange {
        cell: Cell,
        old: Content,
        new: Content,
        then: Then,
    },
}

impl Seat {
    ghost use Rattle.std.specs.Prelude.{◌≡◌};
    ghost use Rattle.ppm_step.specs.Rows.{with_kind};

    /// The place goes on with a kind, its bottom as it is.
    pub fn with_kind(&self, kind: RestartKind) -> Then
        ensures { result ≡ with_kind self.now kind }
    {
        Then::Install(Restart {
            kind,
            bottom: self.restart.bottom,
        })
    }
}

/// The left branch of a block begins, with this bottom.
pub fn left_begins(block: u32, bottom: u32) -> Then
    requires { IsAddress block }
    ensures { result ≡ left_begins block bottom }
{
    Then::Install(Restart {
        kind: RestartKind::Run {
            frame: left_frame(block),
            copy: 0,
        },
        bottom,
    })
}

/// Words with which no row goes on.
#[inline(always)]
pub fn broken() -> Row
    ensures { result ≡ Now Broken }
{
    Row::Now(Then::Broken)
}

/// A load, and what it finds.
#[inline(always)]
pub fn load(point: Point) -> Row
    ensures { result ≡ Now (Load point) }
{
    Row::Now(Then::Load(point))
}
