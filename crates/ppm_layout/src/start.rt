//! Where a run begins: the places, and the root's frame in the pool of one of them.
ghost use Rattle.std.specs.Prelude.{◌≡◌, ◌++◌, ◌<◌, ◌≤◌, OnOk, length};
ghost use Rattle.ppm_cells.specs.Cells.{pool_at};
ghost use Rattle.ppm_layout.specs.Opening.{first_restart, first_room};
ghost use Rattle.ppm_layout.specs.Sequence.{place_head, block_words, place_words, places};

use crate::root::Root;
use crate::sequence::{push_entries, push_zeros};
use ppm_cells::{Holder, Restart, RestartKind, Shape};
use ppm_words::NoMemory;

/// The machine's sizes, the keeper, and the root's frame, with which the pool of the keeper's place
/// begins.
#[derive(Drop)]
pub struct Start {
    pub shape: Shape,
    pub keeper: u32,
    pub root: Root,
    pub ghost keeper_below: { keeper < shape.processors },
    pub ghost root_fits: { root.size ≤ 31 },
    pub ghost frame_fits: { length root.frame.items ≤ 31 },
}

impl Start {
    /// With what a place goes on: the keeper's with the root's frame, all others with looking for
    /// work.
    fn restart_of(&self, place: u32) -> Restart
        ensures { result ≡ first_restart self.now.shape self.now.keeper place }
    {
        let frame = self.shape.pool_at(self.keeper);
        let kind = if place == self.keeper {
            RestartKind::Run { frame, copy: 0 }
        } else {
            RestartKind::Seek
        };
        Restart { kind, bottom: 1 }
    }

    /// The first word of a place's pool that is free.
    fn room_of(&self, place: u32) -> u32
        requires { place < self.now.shape.processors }
        ensures { result ≡ first_room self.now.shape self.now.keeper self.now.root.size place }
    {
        let pool = self.shape.pool_at(place);
        if place == self.keeper {
            pool + self.root.size
        } else {
            pool
        }
    }

    /// Appends the five words with which a place begins: restart, message, holder, top and room
    /// counter.
    fn push_head(&self, words: &mut Vec<u64>, place: u32) -> Result<(), NoMemory>
        requires { place < self.now.shape.processors }
        ensures { OnOk result (words.new.items ≡ words.old.items
            ++ place_head self.now.shape self.now.keeper self.now.root.size place) }
    {
        let holder = Holder {
            tag: 0,
            processor: place,
        };
        words.push(self.restart_of(place).pack())?;
        words.push(0)?;
        words.push(holder.pack())?;
        words.push(1)?;
        words.push(u64::from(self.room_of(place)))?;
        Ok(())
    }

    /// Appends the pool of a place: the root's frame at the keeper's, and else zeros.
    fn push_pool(&self, words: &mut Vec<u64>, place: u32) -> Result<(), NoMemory>
        requires { place < self.now.shape.processors }
        ensures { OnOk result (words.new.items ≡ words.old.items
            ++ block_words self.now.shape self.now.keeper self.now.root.frame.items
            (pool_at self.now.shape place) self.now.shape.room) }
    {
        if place == self.keeper {
            self.push_keepers_pool(words)
        } else {
            push_zeros(words, self.shape.room)
        }
    }

    /// Appends the pool of the keeper's place.
    fn push_keepers_pool(&self, words: &mut Vec<u64>) -> Result<(), NoMemory>
        ensures { OnOk result (words.new.items ≡ words.old.items
            ++ block_words self.now.shape self.now.keeper self.now.root.frame.items
            (pool_at self.now.shape self.now.keeper) self.now.shape.room) }
    {
        words.extend_from_slice(self.root.frame.as_slice())?;
        push_zeros(words, self.shape.room - self.root.frame.len() as u32)
    }

    /// Appends a place: its five words, its entries and its pool.
    fn push_place(&self, words: &mut Vec<u64>, place: u32) -> Result<(), NoMemory>
        requires { place < self.now.shape.processors }
        ensures { OnOk result (words.new.items ≡ words.old.items
            ++ place_words self.now.shape self.now.keeper self.now.root.size self.now.root.frame.items place) }
    {
        self.push_head(words, place)?;
        push_entries(words, self.shape.slots)?;
        self.push_pool(words, place)?;
        Ok(())
    }

    /// Appends all places.
    pub(crate) fn push_places(&self, words: &mut Vec<u64>) -> Result<(), NoMemory>
        ensures { OnOk result (words.new.items ≡ words.old.items
            ++ places self.now.shape self.now.keeper self.now.root.size self.now.root.frame.items
            self.now.shape.processors) }
    {
        for place in 0..self.shape.processors {
            self.push_place(words, place)?;
        }
        Ok(())
    }
}
