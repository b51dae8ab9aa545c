//! Regions of the array words.
ghost use Rattle.std.specs.Prelude.{◌≡◌, ◌↔◌, IsSome, IfSome};
ghost use Rattle.ppm_cells.specs.Exact.{IsWhatPacksTo};
ghost use Rattle.ppm_cells.specs.Region.{region_word, region_of, IsRegion};

use crate::field::{bits_of, joined};

/// A region: `length` array words from the one at `start` on. Array words count from 0.
#[derive(Clone, Copy, Debug, PartialEq, Eq)]
pub struct Region {
    pub start: u32,
    pub length: u32,
}

impl Region {
    /// The word of the region.
    #[tactic(auto, unfolding(crate::specs::Fields::number_of))]
    pub fn pack(&self) -> u64
        requires { IsRegion self.now }
        ensures { result ≡ region_word self.now }
    {
        joined(u64::from(self.start), 32, u64::from(self.length))
    }

    /// The region that a word stands for. Every word stands for one.
    #[tactic(auto, unfolding(crate::specs::Exact::unpacked))]
    pub fn unpack(word: u64) -> Option<Region>
        ensures value { result ≡ region_of word }
        ensures exactly { IsWhatPacksTo region_word IsRegion word result }
        ensures fits { IfSome result IsRegion }
        ensures every { IsSome result }
    {
        let start = bits_of(word, 32, 32) as u32;
        let length = bits_of(word, 0, 32) as u32;
        let region = Region { start, length };
        (region.pack() == word).then_some(region)
    }
}
