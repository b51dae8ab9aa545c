//! Lines of cells.
ghost use Rattle.std.specs.Prelude.{◌≡◌, ◌++◌, OnOk};
ghost use Rattle.ppm_cells.specs.Cells.{IsCell};
ghost use Rattle.ppm_cells.specs.declared.cell.Cell.TheVariants.{EntryWord};
ghost use Rattle.ppm_lines.specs.Line.{field};
ghost use Rattle.ppm_naming.specs.Cells.{cell_text, kind_of as kind_by};
ghost use Rattle.ppm_naming.specs.Values.{value_text};
ghost use Rattle.ppm_show.specs.Lines.{cell_line as line_of_cell, element_line, entry_line};
ghost use Rattle.ppm_show.specs.Lines.{is_entry_filled as is_filled_by};

use crate::subject::push_subject;
use ppm_cells::{Cell, Entry};
use ppm_lines::{Scene, fill};
use ppm_naming::{WordKind, kind_of, push_cell, push_value};
use ppm_words::NoMemory;
use std::alloc::Global;

/// Appends the name of a cell, filled up.
fn push_name(text: &mut Vec<u8>, scene: &Scene, cell: Cell) -> Result<(), NoMemory>
    ensures { OnOk result (text.new.items
        ≡ text.old.items ++ field 18 (cell_text scene.now.names scene.now.lengths cell)) }
{
    let start = text.len();
    push_cell(text, scene.names(), scene.lengths(), cell)?;
    fill(text, start, 18)
}

/// Appends what the word of a cell stands for, filled up.
fn push_worth(alloc: Global, text: &mut Vec<u8>, word: u64, cell: Cell) -> Result<(), NoMemory>
    ensures { OnOk result (text.new.items
        ≡ text.old.items ++ field 22 (value_text (kind_by cell) word)) }
{
    let start = text.len();
    push_value(alloc, text, kind_of(cell), word)?;
    fill(text, start, 22)
}

/// Appends the line of a word of the machine.
pub(crate) fn push_cell_line(
    alloc: Global,
    text: &mut Vec<u8>,
    scene: &Scene,
    word: u64,
    cell: Cell,
) -> Result<(), NoMemory>
    requires { IsCell scene.now.shape cell }
    ensures { OnOk result (text.new.items ≡ text.old.items ++ line_of_cell scene.now word cell) }
{
    push_name(text, scene, cell)?;
    push_worth(alloc, text, word, cell)?;
    push_subject(text, scene, word, cell)?;
    text.push(b'\n')?;
    Ok(())
}

/// Appends the line of an array word.
pub(crate) fn push_element_line(
    alloc: Global,
    text: &mut Vec<u8>,
    scene: &Scene,
    word: u64,
    cell: Cell,
) -> Result<(), NoMemory>
    ensures { OnOk result (text.new.items ≡ text.old.items ++ element_line scene.now word cell) }
{
    push_cell(text, scene.names(), scene.lengths(), cell)?;
    text.push(b' ')?;
    push_value(alloc, text, WordKind::Signed, word)?;
    text.push(b'\n')?;
    Ok(())
}

/// Whether an entry has a line.
fn is_entry_filled(entry: Option<Entry>) -> bool
    ensures { result ≡ is_filled_by entry }
{
    match entry {
        None => true,
        Some(Entry::Empty { .. }) => false,
        Some(Entry::Local { .. }) | Some(Entry::Job { .. }) | Some(Entry::Taken { .. }) => true,
    }
}

/// Appends the line of an entry, if it has one.
pub(crate) fn push_entry_line(
    alloc: Global,
    text: &mut Vec<u8>,
    scene: &Scene,
    word: u64,
    place: u32,
    slot: u32,
) -> Result<(), NoMemory>
    requires { IsCell scene.now.shape (EntryWord place slot) }
    ensures { OnOk result (text.new.items ≡ text.old.items ++ entry_line scene.now word place slot) }
{
    let top = scene.shape().address(Cell::Top { place });
    if u64::from(slot) < scene.word_at(u64::from(top)) {
        return Ok(());
    }
    if !is_entry_filled(Entry::unpack(word)) {
        return Ok(());
    }
    push_cell_line(alloc, text, scene, word, Cell::EntryWord { place, slot })
}
