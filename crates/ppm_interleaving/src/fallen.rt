//! What capsules have settled, and whether it stands.
ghost use Rattle.std.specs.Prelude.{◌≡◌, ◌↔◌, ℕ, List, [], ◌∷◌, IsTrue, MatchOption, length};
ghost use Rattle.ppm_strands.specs.Tree.{Words};
ghost use Rattle.ppm_code.specs.declared.location.FrameWord.{FrameWord};
ghost use Rattle.ppm_racy.specs.declared.code.RacyParts.{RacyParts};
ghost use Rattle.ppm_interleaving.specs.Changes.{AreStill, IsFirstNotStill};
ghost use Rattle.ppm_interleaving.specs.Shows.{Shows, TellsFallen, settled_in};
ghost use Rattle.ppm_interleaving.specs.Turns.{Moment};

use crate::change::Change;
use crate::machine::Machine;
use crate::own::word_at;
use crate::strand::Strand;

/// A change that the capsule of a strand under way has settled and that does not stand: made again
/// now, it would change its word. `number` says which of the capsule's changes it is, from 0.
#[derive(Clone, Copy, Debug, PartialEq, Eq)]
pub struct Fallen {
    pub strand: usize,
    pub number: usize,
    pub change: Change,
}

/// Whether a change, made again now, would leave its word as it is.
fn is_still(change: Change, words: &[u64]) -> bool
    ensures { IsTrue result ↔ AreStill words.now (change ∷ []) }
{
    let is = word_at(words, change.word() as usize);
    change.made_of(is) == is
}

/// The first of some changes that would not, with its number.
fn first_fallen(changes: &[Change], words: &[u64]) -> Option<(usize, Change)>
    ensures { MatchOption result (AreStill words.now changes.now)
        (λ found. IsFirstNotStill words.now changes.now found.0 found.1) }
{
    let mut number: usize = 0;
    let mut left = changes;
    while let Some((change, rest)) = left.split_first() {
        if !is_still(*change, words) {
            return Some((number, *change));
        }
        number += 1;
        left = rest;
    }
    None
}

/// That of the changes that the capsule of a strand has settled.
fn fallen_of(strand: &Strand, words: &[u64]) -> Option<(usize, Change)>
    ensures { MatchOption result (AreStill words.now (settled_in strand.now))
        (λ found. IsFirstNotStill words.now (settled_in strand.now) found.0 found.1) }
{
    match strand {
        Strand::Running(running) => first_fallen(&running.settled, words),
        Strand::Waiting(_) | Strand::Tells(_) | Strand::Over(_) => None,
    }
}

impl Machine {
    /// The first change that does not stand: of the strand of the least number, its first.
    pub fn fallen(&self) -> Option<Fallen>
        ensures { (code : RacyParts) (root : FrameWord → ℕ) (arrays : Words) (h : List Moment)
            → Shows code (length self.now.words.items) root arrays h self.now
            → TellsFallen code (length self.now.words.items) root arrays h result }
    {
        let mut strand = 0;
        while strand < self.strands.len() {
            if let Some((number, change)) = fallen_of(&self.strands[strand], &self.words) {
                return Some(Fallen {
                    strand,
                    number,
                    change,
                });
            }
            strand += 1;
        }
        None
    }
}
