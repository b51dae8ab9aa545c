//! Lists of names that a tree has.
ghost use Rattle.std.specs.Prelude.{◌≡◌, [], ◌∷◌, ◌++◌, length, OnOk, take};
ghost use Rattle.ppm_cut_bounds.specs.Catching.{has};

use ppm_words::{Name, NoMemory};
use std::alloc::Global;
use std::marker::Model;

/// A name in a tree.
#[derive(Drop)]
pub struct Mention<'a> {
    name: &'a Name,
}

impl<'a> Model for Mention<'a> {
    ghost use Rattle.std.specs.Prelude.{List, ℕ};

    ghost Value = { List ℕ };

    ghost view = { λ m. m.name.now };
}

impl<'a> Mention<'a> {
    /// The name.
    pub fn name(&self) -> &'a Name
        ensures { result.now ≡ self.now }
    {
        self.name
    }
}

/// Names in a tree, in the order in which they were added.
#[derive(Drop)]
pub struct Names<'a> {
    mentions: Vec<Mention<'a>>,
}

impl<'a> Model for Names<'a> {
    ghost use Rattle.std.specs.Prelude.{List, ℕ};

    ghost Value = { List (List ℕ) };

    ghost view = { λ n. n.mentions.items };
}

impl<'a> Names<'a> {
    /// No names.
    pub fn new(alloc: Global) -> Self
        ensures { result ≡ [] }
    {
        Names {
            mentions: Vec::new(alloc),
        }
    }

    /// The names, the first at 0.
    pub fn as_slice(&self) -> &[Mention<'a>]
        ensures { result.now ≡ self.now }
    {
        &self.mentions
    }

    /// How many there are.
    pub fn len(&self) -> usize
        ensures { result ≡ length self.now }
    {
        self.mentions.len()
    }

    /// Whether this name is one of them.
    pub fn has(&self, name: &Name) -> bool
        ensures { result ≡ has self.now name.now }
    {
        for mention in self.as_slice() {
            if name.is(mention.name()) {
                return true;
            }
        }
        false
    }

    /// Adds a name.
    pub fn push(&mut self, name: &'a Name) -> Result<(), NoMemory>
        ensures { OnOk result (self.new ≡ self.old ++ name.now ∷ []) }
    {
        self.mentions.push(Mention { name })?;
        Ok(())
    }

    /// Forgets all names but so many of the first.
    pub fn truncate(&mut self, count: usize)
        ensures { self.new ≡ take count self.old }
    {
        self.mentions.truncate(count);
    }
}
