//! The names of cells.
ghost use Rattle.std.specs.Prelude.{◌≡◌, ◌++◌, OnOk, codes};
ghost use Rattle.ppm_naming.specs.Cells.{cell_text, element_text, numbered};

use crate::names::Names;
use crate::numbers::{push_index, push_numbered, push_word};
use ppm_cells::Cell;
use ppm_pieces::push_number;
use ppm_words::{Name, NoMemory};

/// Appends the name of an array word, by the array in which it lies.
fn push_element(
    text: &mut Vec<u8>,
    arrays: &[Name],
    lengths: &[u32],
    index: u32,
) -> Result<(), NoMemory>
    ensures { OnOk result (text.new.items
        ≡ text.old.items ++ element_text arrays.now lengths.now index) }
{
    let mut names = arrays;
    let mut sizes = lengths;
    let mut left = index;
    while let [name, other_names @ ..] = names {
        let [len, other_sizes @ ..] = sizes else {
            break;
        };
        if left < *len {
            text.extend_from_slice(name.as_bytes())?;
            return push_index(text, left);
        }
        names = other_names;
        sizes = other_sizes;
        left -= *len;
    }
    push_word(text, "array")?;
    push_index(text, index)
}

/// Appends the name of an entry.
fn push_slot(text: &mut Vec<u8>, place: u32, slot: u32) -> Result<(), NoMemory>
    ensures { OnOk result (text.new.items
        ≡ text.old.items ++ numbered (numbered (codes "entry") place) slot) }
{
    push_numbered(text, "entry", place)?;
    text.push(b'.')?;
    push_number(text, u64::from(slot))?;
    Ok(())
}

/// Appends the name of a cell. `lengths` are those of the arrays, in their order; an array word
/// that lies in none of them is called `array`, with its index among all array words.
pub fn push_cell(
    text: &mut Vec<u8>,
    names: &Names,
    lengths: &[u32],
    cell: Cell,
) -> Result<(), NoMemory>
    ensures { OnOk result (text.new.items
        ≡ text.old.items ++ cell_text names.now lengths.now cell) }
{
    match cell {
        Cell::FinishWord => push_word(text, "finish"),
        Cell::CarryWord { processor } => push_numbered(text, "carry", processor),
        Cell::DeadWord { processor } => push_numbered(text, "dead", processor),
        Cell::RestartWord { place } => push_numbered(text, "restart", place),
        Cell::MessageWord { place } => push_numbered(text, "message", place),
        Cell::HolderWord { place } => push_numbered(text, "holder", place),
        Cell::Top { place } => push_numbered(text, "top", place),
        Cell::RoomCounter { place } => push_numbered(text, "room", place),
        Cell::EntryWord { place, slot } => push_slot(text, place, slot),
        Cell::BlockWord { address } => push_numbered(text, "word", address),
        Cell::ArrayWord { index } => { push_element(text, names.arrays.as_slice(), lengths, index) }
    }
}
