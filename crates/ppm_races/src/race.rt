//! What is told of a race.

/// The capsule that opened a fork: its number in the depth-first run, from 1 on, and in the code,
/// from 0 on.
#[derive(Clone, Copy, Debug, PartialEq, Eq)]
pub struct Opener {
    pub run: u64,
    pub capsule: u32,
}

/// A capsule that touched a word, by its number in the run and in the code, and whether it wrote
/// the word.
#[derive(Clone, Copy, Debug, PartialEq, Eq)]
pub struct Visit {
    pub run: u64,
    pub capsule: u32,
    pub writes: bool,
}

/// A capsule that touches a word, by its number in the run and in the code; the number of its
/// instruction that does, from 0 on; and whether this writes.
#[derive(Clone, Copy, Debug, PartialEq, Eq)]
pub struct Touching {
    pub run: u64,
    pub capsule: u32,
    pub at: u32,
    pub writes: bool,
}

/// The first race of a depth-first run: the array word, counted from 0 over all arrays; the capsule
/// that opened the fork; and two touches of the word, one in the fork's left branch and one in its
/// right one, one of which writes.
#[derive(Clone, Copy, Debug, PartialEq, Eq)]
pub struct Race {
    pub word: u64,
    pub fork: Opener,
    pub left: Visit,
    pub right: Touching,
}
