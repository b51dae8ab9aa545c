//! What a step asks of the words.

/// A word step, by its address.
#[derive(Clone, Copy, Debug, PartialEq, Eq)]
pub enum Want {
    Loads(u32),
    /// The word goes to the address.
    Stores(u32, u64),
    /// A compare-and-modify: where the word at the address is the second one, the third one takes
    /// its place.
    Exchanges(u32, u64, u64),
    /// None: the processor is done.
    Nothing,
}
