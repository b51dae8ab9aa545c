//! What seats know, and the rule of the table.
ghost use Rattle.ppm_table.specs.Run.{IsRun, maker, spent, left_of, right_of, both_of};
ghost use Rattle.ppm_table.specs.Run.{loads, stores, exchanges, softens, hardens, spends, refuses};

use crate::padded::Padded;
use atomic_table::{Join, Play, Split, Table, TableRule};
use ppm_cells::Shape;
use ppm_code::Code;
use ppm_step::Why;
use std::alloc::Global;

/// What a processor did on the words, by addresses.
#[derive(Clone, Copy)]
pub enum Deed {
    /// It loaded the word at an address, and found this.
    Loaded(u32, u64),
    /// It stored this at an address.
    Stored(u32, u64),
    /// It made a compare-and-modify of the word at an address, from one word to another.
    Exchanged(u32, u64, u64),
    /// It lost its registers.
    Softened,
    /// It said that it is dead.
    Hardened,
    /// It gave up.
    Quitted(Why),
}

/// What the table is told when it is made: its sizes, the code, and the words by their addresses.
#[derive(Drop)]
pub struct Opening {
    pub shape: Shape,
    pub code: Code,
    pub words: Padded,
}

/// What a processor's seat knows. No value of it is made.
pub struct Record {
    pub number: u32,
    pub deeds: [Deed; 0],
}

/// What a seat knows. No value of it is made.
pub enum View {
    /// All numbers from this one on are not given away yet.
    Maker(u32),
    /// A processor's seat.
    Seated(Record),
    /// What seats knew that are given back.
    Ended([Record; 0]),
    /// A seat that was given back.
    Spent,
}

/// The rule: the words and what seats know are those of one run.
pub struct Runs;

impl TableRule<(), View, Opening> for Runs {
    ghost holds = { IsRun };

    ghost first = { λ _. maker 0 };
}

/// The maker's seat gives the next number to a new seat.
pub struct Halves;

impl Split<View> for Halves {
    ghost left = { left_of };

    ghost right = { right_of };
}

/// A seat takes in what another one knew.
pub struct Wholes;

impl Join<View> for Wholes {
    ghost both = { both_of };

    ghost spent = { spent };
}

/// The step that is a load.
pub struct Loads;

impl Play<(), View> for Loads {
    ghost then = { loads };
}

/// The step that is a store.
pub struct Stores;

impl Play<(), View> for Stores {
    ghost then = { stores };
}

/// The step that is a compare-and-modify.
pub struct Exchanges;

impl Play<(), View> for Exchanges {
    ghost then = { exchanges };
}

/// A soft fault: a load that nothing looks at.
pub struct Softens;

impl Play<(), View> for Softens {
    ghost then = { softens };
}

/// A hard fault: the store of the dead word.
pub struct Hardens;

impl Play<(), View> for Hardens {
    ghost then = { hardens };
}

/// A quit of a processor whose work turns are spent.
pub struct Spends;

impl Play<(), View> for Spends {
    ghost then = { spends };
}

/// A quit of a processor whose watcher refused.
pub struct Refuses;

impl Play<(), View> for Refuses {
    ghost then = { refuses };
}

/// The shared words.
pub type Words = Table<(), View, Opening, Runs, Global>;
