//! The words of a table that no thread shares any more.
ghost use Rattle.std.specs.Prelude.{◌≡◌, ◌≤◌, ◌<◌, ◌+◌, ◌^◌, IfOk, drop, length, get_or, slice_index, take};
ghost use Rattle.std.specs.List.{sum};
ghost use Rattle.std.specs.Slots.{IsFull, slots_items, slots_len};
ghost use Rattle.ppm_cells.specs.Cells.{arrays_at, word_count};
ghost use Rattle.ppm_cells.specs.Memory.{AreWordsOf, read};
ghost use Rattle.ppm_cells.specs.declared.cell.Cell.TheVariants.{FinishWord};
ghost use Rattle.ppm_cells.specs.Ending.{ending_of};
ghost use Rattle.ppm_table.specs.Closed.{array_of};
ghost use Rattle.ppm_table.specs.Run.{padding};

use crate::touching::PADDING;
use atomic_table::Closed as ClosedTable;
use ppm_cells::{Cell, Ending, Shape};
use ppm_words::{Items, NoMemory};
use std::alloc::Global;
use std::marker::Model;

/// The words of a table that no thread shares any more. It is seen as the sizes, the arrays'
/// lengths and the words by their addresses.
pub struct Closed {
    table: ClosedTable<(), Global>,
    shape: Shape,
    lengths: Items<u32>,
}

impl Model for Closed {
    ghost use Rattle.std.specs.Prelude.{◌≡◌, ◌+◌, drop};
    ghost use Rattle.std.specs.List.{sum};
    ghost use Rattle.std.specs.Slots.{IsFull, slots_items, slots_len};
    ghost use Rattle.ppm_cells.specs.Cells.{word_count};
    ghost use Rattle.ppm_table.specs.Closed.{Closing};
    ghost use Rattle.ppm_table.specs.Run.{padding};

    ghost Value = { Closing };

    ghost view = { λ c. record {
      shape = c.shape;
      array_lengths = c.lengths;
      words = drop padding (slots_items c.table.words);
    } };

    ghost invariant = { λ c. IsFull c.table.words × (slots_len c.table.words ≡ padding + word_count c.shape)
        × (slots_len c.table.slots ≡ 0) × (sum c.lengths ≡ c.shape.arrays) };
}

impl Drop for Closed {
    fn drop(self) {
        let Closed {
            table,
            shape: _,
            lengths: _,
        } = self;
        table.free();
    }
}

/// The words of a table with these sizes and arrays.
pub(crate) fn closed_over(
    table: ClosedTable<(), Global>,
    shape: Shape,
    lengths: Items<u32>,
) -> Closed
    requires full { IsFull table.words }
    requires wide { slots_len table.words ≡ padding + word_count shape }
    requires flat { slots_len table.slots ≡ 0 }
    requires arrays { sum lengths ≡ shape.arrays }
    ensures sizes { (result.shape ≡ shape) × (result.array_lengths ≡ lengths) }
    ensures words { result.words ≡ drop padding (slots_items table.words) }
{
    Closed {
        table,
        shape,
        lengths,
    }
}

/// The sum of some lengths.
fn total(lengths: &[u32]) -> u32
    requires { sum lengths.now < 2 ^ 32 }
    ensures { result ≡ sum lengths.now }
{
    let mut total = 0;
    let mut left = lengths;
    while let [first, rest @ ..] = left {
        total += *first;
        left = rest;
    }
    total
}

impl Closed {
    ghost use Rattle.std.specs.Prelude.{◌≡◌, ◌<◌, ◌≤◌, ◌+◌, IfOk, drop, length, slice_index, take};
    ghost use Rattle.ppm_cells.specs.Cells.{word_count};
    ghost use Rattle.ppm_cells.specs.Memory.{AreWordsOf, read};
    ghost use Rattle.ppm_cells.specs.declared.cell.Cell.TheVariants.{FinishWord};
    ghost use Rattle.ppm_cells.specs.Ending.{ending_of};
    ghost use Rattle.ppm_table.specs.Closed.{array_of};

    /// How many words there are.
    pub fn word_count(&self) -> u32
        ensures value { result ≡ word_count self.now.shape }
        ensures words { AreWordsOf self.now.shape self.now.words }
    {
        self.shape.word_count()
    }

    /// The word at an address, which is below the number of words.
    pub fn word(&self, at: u32) -> u64
        requires { at < word_count self.now.shape }
        ensures { result ≡ slice_index self.now.words at }
    {
        self.table.word(PADDING + at as usize)
    }

    /// The finish word.
    pub fn finish_word(&self) -> u64
        ensures { result ≡ read self.now.shape self.now.words FinishWord }
    {
        self.word(self.shape.address(Cell::FinishWord))
    }

    /// How the run has ended, as the finish word says.
    pub fn outcome(&self) -> Ending
        ensures { result ≡ ending_of (read self.now.shape self.now.words FinishWord) }
    {
        Ending::of_word(self.finish_word())
    }

    /// The sizes.
    pub fn shape(&self) -> Shape
        ensures { result ≡ self.now.shape }
    {
        self.shape
    }

    /// How many arrays there are.
    pub fn arrays(&self) -> usize
        ensures { result ≡ length self.now.array_lengths }
    {
        self.lengths.as_slice().len()
    }

    /// The words from an address on, of the given number.
    fn part(&self, alloc: Global, start: u32, length: u32) -> Result<Vec<u64>, NoMemory>
        requires { start + length ≤ word_count self.now.shape }
        ensures { IfOk result (λ words. words.items ≡ take length (drop start self.now.words)) }
    {
        // The proof needs how many there are.
        let _ = self.word_count();
        let mut words = Vec::with_capacity(alloc, length as usize)?;
        for i in 0..length {
            words.push(self.word(start + i))?;
        }
        Ok(words)
    }

    /// The words of an array, copied out, by its number, which is below that of the arrays. `Err`
    /// only where memory is refused.
    pub fn array(&self, alloc: Global, number: usize) -> Result<Vec<u64>, NoMemory>
        requires { number < length self.now.array_lengths }
        ensures { IfOk result (λ words. words.items ≡ array_of self.now number) }
    {
        let lengths = self.lengths.as_slice();
        let start = self.shape.arrays_at() + total(&lengths[..number]);
        self.part(alloc, start, lengths[number])
    }
}
