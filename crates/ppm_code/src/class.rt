//! What an instruction may do whatever the registers hold.

/// Classes of locations, as far as an instruction tells them apart: all array words are one class.
#[derive(Clone, Copy, Debug, PartialEq, Eq)]
pub enum Class {
    /// This slot of the frame.
    Slot(u32),
    /// This word of the new block.
    New(u32),
    /// The value that the frame gives.
    Value,
    /// The counter of block words.
    Room,
    /// The array words.
    Array,
}

/// What an instruction may do, whatever the registers hold; any may trap, if it can.
#[derive(Clone, Copy, Debug, PartialEq, Eq)]
pub enum May {
    /// Register work.
    Work,
    /// A read of one of this class.
    Read(Class),
    /// A write of one of this class.
    Write(Class),
    /// Going on at this instruction, or at the next.
    Branch(u32),
    /// The end of the capsule.
    Stop,
}
