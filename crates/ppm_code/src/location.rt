//! Where instructions read and write.

/// A word of a frame's own: a slot, or the value that it gives.
#[derive(Clone, Copy, Debug, PartialEq, Eq)]
pub enum FrameWord {
    Slot(u32),
    Value,
}

/// Where an instruction reads or writes. Words of the new block count from its first, array words
/// from that of the first array.
#[derive(Clone, Copy, Debug, PartialEq, Eq)]
pub enum Location {
    Frame(FrameWord),
    New(u32),
    Array(u64),
}
