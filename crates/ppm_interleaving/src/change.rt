//! Changes of array words.
ghost use Rattle.std.specs.Prelude.{◌≡◌};
ghost use Rattle.ppm_interleaving.specs.Changes.{change_of};

/// A change that a capsule asks for: a word becomes a value; or it becomes the new one if it is the
/// old one. Words count from 0 over all arrays.
#[derive(Clone, Copy, Debug, PartialEq, Eq)]
pub enum Change {
    Puts { word: u64, value: u64 },
    Exchanges { word: u64, old: u64, new: u64 },
}

impl Change {
    /// The word.
    pub fn word(self) -> u64
        ensures { result ≡ (change_of self).at }
    {
        match self {
            Change::Puts { word, .. } => word,
            Change::Exchanges { word, .. } => word,
        }
    }

    /// What the change makes of a word that is this.
    pub fn made_of(self, found: u64) -> u64
        ensures { result ≡ (change_of self).by found }
    {
        match self {
            Change::Puts { value, .. } => value,
            Change::Exchanges { old, new, .. } => { if found == old { new } else { found } }
        }
    }
}
