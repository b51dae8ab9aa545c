//! What a watcher is told.

/// One event of a run: at a step, the processor at a place made a value of a word.
/// Steps, places and words count from 0.
#[derive(Clone, Copy, Debug, PartialEq, Eq)]
pub struct Event {
    pub step: u32,
    pub place: u32,
    pub word: u32,
    pub value: u64,
}
