//! Why a source is refused.

/// The pass over a source that finds its fault.
#[derive(Clone, Copy, Debug, PartialEq, Eq)]
pub enum Pass {
    /// The bytes of the text, from which the tokens are made.
    Text,
    /// The tokens, from which the tree is made.
    Syntax,
    /// The tree's names and regions.
    Region,
    /// The cut of an admitted tree into capsules.
    Cut,
    /// The text of a RAM, from which its memory and its instructions are made.
    Ram,
}

/// Why a source is refused: its fault, by the pass that finds it. Want of memory is none, but an
/// answer of its own.
#[derive(Clone, Copy, Debug, PartialEq, Eq)]
pub struct Refusal {
    /// The pass.
    pub pass: Pass,
    /// The fault's number, from 1, as each pass numbers its faults.
    pub number: u32,
    /// Where the fault is. Of a text and its tokens: the place of a byte, from 0. Of names and
    /// regions: a line, from 1, or 0 for none. Of the cut: a procedure, from 0, or 0 for none. Of the
    /// text of a RAM: a line, from 1.
    pub place: u32,
}
