//! How many words a machine has, and where they lie.
ghost use Rattle.std.specs.Prelude.{◌≡◌, ◌*◌, nat_le};
ghost use Rattle.ppm_cells.specs.Limits.{IsWithinLimits, most_pool_words};

use crate::cell::Cell;
use ppm_words::{ENTRY_LIMIT, PROCESSOR_LIMIT, WORD_LIMIT};

/// The least words of a place's pool.
pub const LEAST_ROOM: u32 = 64;

/// The words of all pools together, at most.
pub const POOL_WORD_LIMIT: u32 = 67_108_864;

/// The least entries of a place's deque.
pub const LEAST_SLOTS: u32 = 2;

/// How a dead processor's strand and jobs are taken over.
#[derive(Clone, Copy, Debug, PartialEq, Eq)]
pub enum Takeover {
    /// A living processor carries the place on.
    ByPlaces,
    /// The place is closed, and is robbed through its deque.
    ByEntries,
}

/// Whether so many processors may have pools of so many words.
pub fn pools_fit(processors: u32, room: u32) -> bool
    ensures { result ≡ nat_le (processors * room) most_pool_words }
{
    u64::from(processors) * u64::from(room) <= u64::from(POOL_WORD_LIMIT)
}

/// The sizes of a machine.
#[derive(Clone, Copy, Debug, PartialEq, Eq)]
pub struct Shape {
    /// How many processors there are, and as many places: 1 to 64.
    pub processors: u32,
    /// The words of a place's pool: 64 or more, with 67,108,864 at most in all pools together.
    pub room: u32,
    /// The entries of a place's deque: 2 to 65,536.
    pub slots: u32,
    /// The array words: 4,194,304 at most.
    pub arrays: u32,
    pub takeover: Takeover,
    pub ghost within: { IsWithinLimits processors room slots arrays },
}

impl Shape {
    ghost use Rattle.std.specs.Prelude.{◌≡◌, ◌↔◌, ◌+◌, ◌<◌, ◌≤◌, IsSome, IfSome};
    ghost use Rattle.ppm_cells.specs.Limits.{IsWithinLimits};
    ghost use Rattle.ppm_cells.specs.Shape.{HasSizes};
    ghost use Rattle.ppm_cells.specs.Cells.{place_at, pool_at, arrays_at, word_count, address};
    ghost use Rattle.ppm_cells.specs.Cells.{IsAddressable};
    ghost use Rattle.ppm_cells.specs.declared.shape.Takeover.TheVariants.{ByEntries};

    /// The shape with these sizes, and with takeover by places; `None` exactly outside the limits.
    pub fn new(processors: u32, room: u32, slots: u32, arrays: u32) -> Option<Shape>
        ensures exactly { IsSome result ↔ IsWithinLimits processors room slots arrays }
        ensures value { IfSome result (HasSizes processors room slots arrays) }
    {
        if processors < 1 || processors > PROCESSOR_LIMIT {
            return None;
        }
        if room < LEAST_ROOM || !pools_fit(processors, room) {
            return None;
        }
        if slots < LEAST_SLOTS || slots > ENTRY_LIMIT {
            return None;
        }
        if arrays > WORD_LIMIT {
            return None;
        }
        Some(Shape {
            processors,
            room,
            slots,
            arrays,
            takeover: Takeover::ByPlaces,
        })
    }

    /// This shape, but with takeover by entries.
    pub fn stealing(self) -> Shape
        ensures { result ≡ record self { takeover = ByEntries } }
    {
        let mut shape = self;
        shape.takeover = Takeover::ByEntries;
        shape
    }

    /// Where a place begins; after the last one, where the arrays begin.
    #[inline(always)]
    fn place_at(&self, place: u32) -> u32
        requires { place ≤ self.now.processors }
        ensures value { result ≡ place_at self.now place }
        ensures bound { result ≤ 71303617 }
    {
        1 + 2 * self.processors + place * (5 + self.slots + self.room)
    }

    /// The address of the first word of a place's pool.
    #[inline(always)]
    pub fn pool_at(&self, place: u32) -> u32
        requires { place < self.now.processors }
        ensures value { result ≡ pool_at self.now place }
        ensures bound { result + self.now.room ≤ arrays_at self.now }
        ensures in_range { arrays_at self.now ≤ 71303617 }
    {
        self.place_at(place) + 5 + self.slots
    }

    /// The address of the first array word.
    #[inline(always)]
    pub fn arrays_at(&self) -> u32
        ensures value { result ≡ arrays_at self.now }
        ensures bound { result ≤ 71303617 }
    {
        self.place_at(self.processors)
    }

    /// How many words there are: 75,497,921 at most.
    #[inline(always)]
    pub fn word_count(&self) -> u32
        ensures value { result ≡ word_count self.now }
        ensures bound { result ≤ 75497921 }
    {
        self.place_at(self.processors) + self.arrays
    }

    /// The address of a cell, from 0.
    #[inline(always)]
    pub fn address(&self, cell: Cell) -> u32
        requires { IsAddressable self.now cell }
        ensures value { result ≡ address self.now cell }
        ensures within { result < word_count self.now }
    {
        self.address_of(cell)
    }

    #[inline(always)]
    fn address_of(&self, cell: Cell) -> u32
        requires { IsAddressable self.now cell }
        ensures { result ≡ address self.now cell }
    {
        match cell {
            Cell::FinishWord => 0,
            Cell::CarryWord { processor } => 1 + processor,
            Cell::DeadWord { processor } => 1 + self.processors + processor,
            Cell::RestartWord { place } => self.place_at(place),
            Cell::MessageWord { place } => self.place_at(place) + 1,
            Cell::HolderWord { place } => self.place_at(place) + 2,
            Cell::Top { place } => self.place_at(place) + 3,
            Cell::RoomCounter { place } => self.place_at(place) + 4,
            Cell::EntryWord { place, slot } => self.place_at(place) + 5 + slot,
            Cell::BlockWord { address } => address,
            Cell::ArrayWord { index } => self.place_at(self.processors) + index,
        }
    }
}
