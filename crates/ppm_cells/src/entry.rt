//! The entries of a deque.
ghost use Rattle.std.specs.Prelude.{◌≡◌, ◌↔◌, ◌^◌, ◌<◌, [], ◌∷◌, IfSome};
ghost use Rattle.ppm_cells.specs.Fields.{number_of, Bits, bits};
ghost use Rattle.ppm_cells.specs.Exact.{IsWhatPacksTo};
ghost use Rattle.ppm_cells.specs.Entry.{entry_word, entry_of, entry_with, IsEntry};

use crate::field::{bits_of, joined};

/// An entry of a deque. Its tag, below 2^34, rises by one at each change; blocks are addresses
/// below 2^28.
#[derive(Clone, Copy, Debug, PartialEq, Eq)]
pub enum Entry {
    /// Nothing is there.
    Empty { tag: u64 },
    /// The strand of the place itself is there. The block is the fork block that a pop got back,
    /// else 0.
    Local { tag: u64, block: u32 },
    /// The right branch of this fork block waits to be taken.
    Job { tag: u64, block: u32 },
    /// It was taken by this place, and by `taker - 64` out of `Local` where that is above 63. Below
    /// 128.
    Taken { tag: u64, taker: u32 },
}

/// The word of an entry's three fields.
#[tactic(auto, unfolding(crate::specs::Fields::number_of))]
fn word_with(kind: u64, tag: u64, payload: u32) -> u64
    requires kind { kind < 4 }
    requires tag { tag < 2 ^ 34 }
    requires payload { payload < 2 ^ 28 }
    ensures { result ≡ number_of (Bits 28 payload ∷ Bits 34 tag ∷ Bits 2 kind ∷ []) }
{
    joined(joined(kind, 34, tag), 28, u64::from(payload))
}

/// The entry in a word's fields, whatever its unused bits are.
fn read(word: u64) -> Entry
    ensures value { result ≡ entry_with (bits 62 2 word) (bits 28 34 word) word }
    ensures fits { IsEntry result }
{
    let tag = bits_of(word, 28, 34);
    let block = bits_of(word, 0, 28) as u32;
    match bits_of(word, 62, 2) {
        0 => Entry::Empty { tag },
        1 => Entry::Local { tag, block },
        2 => Entry::Job { tag, block },
        _ => Entry::Taken {
            tag,
            taker: bits_of(word, 0, 7) as u32,
        },
    }
}

impl Entry {
    /// The word of the entry.
    #[tactic(auto, unfolding(crate::specs::Fields::number_of))]
    pub fn pack(&self) -> u64
        requires { IsEntry self.now }
        ensures { result ≡ entry_word self.now }
    {
        match *self {
            Entry::Empty { tag } => word_with(0, tag, 0),
            Entry::Local { tag, block } => word_with(1, tag, block),
            Entry::Job { tag, block } => word_with(2, tag, block),
            Entry::Taken { tag, taker } => word_with(3, tag, taker),
        }
    }

    /// The entry that a word stands for; `None` exactly for a word that no entry packs to.
    #[tactic(auto, unfolding(crate::specs::Exact::unpacked))]
    pub fn unpack(word: u64) -> Option<Entry>
        ensures value { result ≡ entry_of word }
        ensures exactly { IsWhatPacksTo entry_word IsEntry word result }
        ensures fits { IfSome result IsEntry }
    {
        let entry = read(word);
        (entry.pack() == word).then_some(entry)
    }
}
