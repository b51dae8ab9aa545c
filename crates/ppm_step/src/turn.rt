//! The acts of processors, and what is told of them.
use ppm_words::Event;

/// Why a processor quits.
#[derive(Clone, Copy, Debug, PartialEq, Eq)]
pub enum Why {
    /// It has made all its turns.
    Turns,
    /// Its watcher has refused an event.
    Watch,
}

/// What a processor does in a turn.
#[derive(Clone, Copy, Debug, PartialEq, Eq)]
pub enum Act {
    /// The word step that comes next; where it is the load of a holder word, that of the place
    /// `victim`.
    Step { victim: u32 },
    /// It loses its registers.
    Soft,
    /// It is dead, and says so in its dead word.
    Hard,
    /// It gives up: the finish word is to say so.
    Quit(Why),
}

/// An item of a run: an act of a processor.
#[derive(Clone, Copy, Debug, PartialEq, Eq)]
pub struct Turn {
    pub processor: u32,
    pub act: Act,
}

/// What a processor's coming step is.
#[derive(Clone, Copy, Debug, PartialEq, Eq)]
pub enum Next {
    /// A word step in a capsule of kind Run, Bump, Push1, Push2, Unwind, Arrive, Join, Pop1 or
    /// Pop2.
    Work,
    /// Another step.
    Look,
    /// The load of the finish word before a Seek.
    Seek,
    /// None.
    Done,
}

/// What is told of a turn: its event, `None` where the processor was done before; whether it was
/// work; and what the processor's coming step is.
#[derive(Clone, Copy, Debug, PartialEq, Eq)]
pub struct Told {
    pub event: Option<Event>,
    pub work: bool,
    pub next: Next,
}
