//! How a run of the language ends.
use crate::items::Items;
use crate::named_array::NamedArray;
use crate::trap::Trap;

/// How a run ends.
#[derive(Debug, Drop)]
pub enum Outcome {
    /// At its end, with these arrays, in the order in which the program declares them.
    Ended(Items<NamedArray>),
    /// By a trap, in this line of the source; lines count from 1.
    Trapped(Trap, u32),
    /// Not within the turns that it was given.
    NotWithin,
}
