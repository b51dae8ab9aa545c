//! Who carries a place.
ghost use Rattle.std.specs.Prelude.{◌≡◌, ◌↔◌, IsSome, IfSome};
ghost use Rattle.ppm_cells.specs.Exact.{IsWhatPacksTo};
ghost use Rattle.ppm_cells.specs.Holder.{holder_word, holder_of, IsHolder};

use crate::field::{bits_of, joined};

/// The processor, below 64, that carries a place. The tag, below 2^58, rises by one at each
/// takeover.
#[derive(Clone, Copy, Debug, PartialEq, Eq)]
pub struct Holder {
    pub tag: u64,
    pub processor: u32,
}

impl Holder {
    /// The word of the holder.
    #[tactic(auto, unfolding(crate::specs::Fields::number_of))]
    pub fn pack(&self) -> u64
        requires { IsHolder self.now }
        ensures { result ≡ holder_word self.now }
    {
        joined(self.tag, 6, u64::from(self.processor))
    }

    /// The holder that a word stands for. Every word stands for one.
    #[tactic(auto, unfolding(crate::specs::Exact::unpacked))]
    pub fn unpack(word: u64) -> Option<Holder>
        ensures value { result ≡ holder_of word }
        ensures exactly { IsWhatPacksTo holder_word IsHolder word result }
        ensures fits { IfSome result IsHolder }
        ensures every { IsSome result }
    {
        let tag = bits_of(word, 6, 58);
        let processor = bits_of(word, 0, 6) as u32;
        let holder = Holder { tag, processor };
        (holder.pack() == word).then_some(holder)
    }
}
