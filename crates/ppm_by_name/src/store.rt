//! The arrays of a run.
ghost use Rattle.std.specs.Prelude.{◌≡◌, get_or, map, set, pos};
ghost use Rattle.ppm_tree.specs.State.{array_at};

use std::marker::Model;

/// The arrays of a run, by their places in the program.
#[derive(Drop)]
pub struct Store {
    arrays: Vec<Vec<i64>>,
}

impl Model for Store {
    ghost use Rattle.std.specs.Prelude.{map};
    ghost use Rattle.ppm_tree.specs.State.{Arrays};

    ghost Value = { Arrays };

    ghost view = { λ s. map (λ v. v.items) s.arrays.items };
}

impl Store {
    /// The arrays with these values.
    pub(crate) fn from_vec(arrays: Vec<Vec<i64>>) -> Self
        ensures { result ≡ map (λ v. v.items) arrays.items }
    {
        Store { arrays }
    }

    /// The word at a place of an array, 0 where there is none.
    pub(crate) fn word(&self, array: usize, at: usize) -> i64
        ensures { result ≡ get_or (array_at self.now array) at (pos 0) }
    {
        match self.arrays.get(array) {
            Some(words) => match words.get(at) {
                Some(word) => *word,
                None => 0,
            },
            None => 0,
        }
    }

    /// Puts a value at a place of an array, if it is there.
    pub fn put(&mut self, array: usize, at: usize, value: i64)
        ensures { self.new ≡ set self.old array (set (array_at self.old array) at value) }
    {
        if array < self.arrays.len() {
            let words = &mut self.arrays[array];
            if at < words.len() {
                words[at] = value;
            }
        }
    }
}
