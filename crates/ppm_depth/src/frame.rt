//! Frames in the stack of blocks, and what they wait for.
use ppm_words::Trap;

/// A frame: the word of the stack with which it begins, and the capsule with which it goes on.
#[derive(Clone, Copy, Debug, PartialEq, Eq)]
pub struct Frame {
    pub base: usize,
    pub capsule: u32,
}

/// How a frame is over: with the value that it gave, or by a trap in a line of the source.
#[derive(Clone, Copy, Debug, PartialEq, Eq)]
pub enum Finish {
    Gave(u64),
    Trapped(Trap, u32),
}

/// What a frame waits for, and the slots that values go to, where they are named.
#[derive(Clone, Copy, Debug, PartialEq, Eq)]
pub enum For {
    /// Its callee.
    Callee {
        to: Option<u32>,
    },
    /// Its left branch; the right one is to begin then.
    Left {
        right: Frame,
        left_to: Option<u32>,
        to: Option<u32>,
    },
    /// Its right branch; the left one is over.
    Right {
        left: Finish,
        left_to: Option<u32>,
        to: Option<u32>,
    },
}

/// A frame that waits, and the word of the stack with which the block of what it waits for begins.
#[derive(Clone, Copy, Debug, PartialEq, Eq)]
pub struct Waiting {
    pub frame: Frame,
    pub block: usize,
    pub on: For,
}

/// What the strand does now: a frame at the beginning of a capsule, or one that is over.
#[derive(Clone, Copy, Debug, PartialEq, Eq)]
pub enum Now {
    At(Frame),
    Over(Finish),
}
