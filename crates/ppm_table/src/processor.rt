//! The shared words, and the processors.
ghost use Rattle.std.specs.Prelude.{◌≡◌, ◌+◌};
ghost use Rattle.std.specs.List.{sum};
ghost use Rattle.ppm_cells.specs.Cells.{word_count};
ghost use Rattle.ppm_cells.specs.Memory.{AreWordsOf};
ghost use Rattle.ppm_table.specs.Run.{padding, IsSeat};
ghost use Rattle.ppm_widths.specs.Widths.{AreWidths};

use crate::act_counts::ActCounts;
use crate::view::{View, Words};
use atomic_table::Seat;
use ppm_cells::Shape;
use ppm_code::Code;
use ppm_step::Local;
use ppm_words::Items;

/// The words that threads share, with the sizes and the code by which processors go.
#[derive(Drop)]
pub struct Shared {
    pub words: Words,
    pub shape: Shape,
    pub code: Code,
    /// The lengths of the arrays, which lie one after the other.
    pub lengths: Items<u32>,
    /// For each capsule, by its number: one more than the highest register that it reads, or 0.
    pub widths: Items<u8>,
    /// Whether its processors count their acts.
    pub counted: bool,
    pub ghost told: { (words.shared.key.shape ≡ shape) × (words.shared.key.code ≡ code) },
    pub ghost opened: { AreWordsOf shape words.shared.key.words },
    pub ghost widths_are: { AreWidths code widths },
    pub ghost arrays_are: { sum lengths ≡ shape.arrays },
    pub ghost wide: { words.shared.table_id.words ≡ padding + word_count shape },
    pub ghost flat: { words.shared.table_id.slots ≡ 0 },
}

/// A processor and its seat.
#[derive(Drop)]
pub struct Processor {
    pub local: Local,
    pub seat: Seat<(), View>,
    /// What is counted of its acts, where its table's processors count them.
    pub counts: ActCounts,
    /// Keeps the registers of one processor off the cache line of the next one's stand.
    pub apart: [u64; 16],
    pub ghost mine: { IsSeat local.own seat.me },
}
