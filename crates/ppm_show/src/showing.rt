//! The text of a saved state.
ghost use Rattle.std.specs.Prelude.{◌≡◌, ◌++◌, ◌<◌, IfOk, OnOk, slice_get};
ghost use Rattle.std.specs.List.{flat_map, range_with_len};
ghost use Rattle.ppm_cells.specs.Cells.{IsCell, word_count};
ghost use Rattle.ppm_naming.specs.Addresses.{addressed as cell_of};
ghost use Rattle.ppm_show.specs.Lines.{line_at, shown_block_line};
ghost use Rattle.ppm_show.specs.Names.{scene_of};
ghost use Rattle.ppm_show.specs.Paths.{is_set};
ghost use Rattle.ppm_show.specs.Routes.{marks_of, shown_blocks};
ghost use Rattle.ppm_show.specs.Show.{fields_text, show_text, size_text, sizes_text};

use crate::block::push_block_line;
use crate::cell::{push_cell_line, push_element_line, push_entry_line};
use crate::marks::shown_marks;
use crate::names::saved_names;
use crate::subject::push_word;
use ppm_cells::{Cell, Shape};
use ppm_lines::{Scene, fill};
use ppm_naming::{addressed, addresses_name_cells};
use ppm_pieces::push_number;
use ppm_saved::Saved;
use ppm_words::NoMemory;
use std::alloc::Global;

/// Appends a size with its name.
fn push_size(text: &mut Vec<u8>, name: &str, size: u32) -> Result<(), NoMemory>
    ensures { OnOk result (text.new.items ≡ text.old.items ++ size_text name.now size) }
{
    push_word(text, name)?;
    push_number(text, u64::from(size))?;
    Ok(())
}

/// Appends the form's version and the machine's sizes.
fn push_sizes(text: &mut Vec<u8>, shape: &Shape) -> Result<(), NoMemory>
    ensures { OnOk result (text.new.items ≡ text.old.items ++ sizes_text shape.now) }
{
    push_word(text, "ppm show 1\n")?;
    push_size(text, "processors ", shape.processors)?;
    push_size(text, " room ", shape.room)?;
    push_size(text, " slots ", shape.slots)?;
    push_word(text, "\n")?;
    Ok(())
}

/// Appends the names of the fields.
fn push_fields(text: &mut Vec<u8>) -> Result<(), NoMemory>
    ensures { OnOk result (text.new.items ≡ text.old.items ++ fields_text) }
{
    let start = text.len();
    push_word(text, "word")?;
    fill(text, start, 18)?;
    let start = text.len();
    push_word(text, "value")?;
    fill(text, start, 22)?;
    push_word(text, "of\n")
}

/// The cell that has this address.
fn cell_at(scene: &Scene, at: u32) -> Cell
    requires { at < word_count scene.now.shape }
    ensures value { result ≡ cell_of scene.now.shape at }
    ensures there { IsCell scene.now.shape result }
{
    // The cell at an address is one of the shape's, by this law; the call does nothing.
    addresses_name_cells();
    addressed(scene.shape(), at)
}

/// Whether it is marked.
fn is_marked(marks: &[bool], at: u32) -> bool
    ensures { result ≡ is_set (slice_get marks.now at) }
{
    match marks.get(at as usize) {
        None => false,
        Some(is_marked) => *is_marked,
    }
}

/// Appends the line of the frame or fork block that begins there, if it is shown.
fn push_shown_block(
    alloc: Global,
    text: &mut Vec<u8>,
    scene: &Scene,
    marks: &[bool],
    at: u32,
) -> Result<(), NoMemory>
    requires at { at < word_count scene.now.shape }
    requires marks { marks.now ≡ marks_of scene.now (shown_blocks scene.now) }
    ensures { OnOk result (text.new.items ≡ text.old.items ++ shown_block_line scene.now at) }
{
    if is_marked(marks, at) {
        push_block_line(alloc, text, scene, at)
    } else {
        Ok(())
    }
}

/// Appends the line of an address, if it has one.
fn push_line_at(
    alloc: Global,
    text: &mut Vec<u8>,
    scene: &Scene,
    marks: &[bool],
    at: u32,
) -> Result<(), NoMemory>
    requires at { at < word_count scene.now.shape }
    requires marks { marks.now ≡ marks_of scene.now (shown_blocks scene.now) }
    ensures { OnOk result (text.new.items ≡ text.old.items ++ line_at scene.now at) }
{
    let word = scene.word_at(u64::from(at));
    let cell = cell_at(scene, at);
    match cell {
        Cell::EntryWord { place, slot } => push_entry_line(alloc, text, scene, word, place, slot),
        Cell::BlockWord { .. } => push_shown_block(alloc, text, scene, marks, at),
        Cell::ArrayWord { .. } => push_element_line(alloc, text, scene, word, cell),
        Cell::FinishWord
        | Cell::CarryWord { .. }
        | Cell::DeadWord { .. }
        | Cell::RestartWord { .. }
        | Cell::MessageWord { .. }
        | Cell::HolderWord { .. }
        | Cell::Top { .. }
        | Cell::RoomCounter { .. } => push_cell_line(alloc, text, scene, word, cell),
    }
}

/// The text of a state.
fn scene_text(alloc: Global, scene: &Scene) -> Result<Vec<u8>, NoMemory>
    ensures { IfOk result (λ text. text.items ≡ show_text scene.now) }
{
    let marks = shown_marks(alloc, scene)?;
    let mut text = Vec::new(alloc);
    push_sizes(&mut text, scene.shape())?;
    push_fields(&mut text)?;
    for at in 0..scene.word_count() {
        push_line_at(alloc, &mut text, scene, &marks, at)?;
    }
    Ok(text)
}

/// A saved state in words: a line for each of its words that says something, and for each frame and
/// fork block of which something goes on or waits. Words that stand for nothing are numbers. `Err`
/// only where memory is refused, which is taken in proportion to the words and the text.
pub fn show(alloc: Global, saved: &Saved) -> Result<Vec<u8>, NoMemory>
    ensures { IfOk result (λ text. text.items
        ≡ show_text (scene_of saved.now.shape saved.now.names saved.now.lengths saved.now.code saved.now.words)) }
{
    let names = saved_names(alloc, saved.names.as_slice(), &saved.code)?;
    let scene = Scene::new(
        &names,
        saved.lengths.as_slice(),
        &saved.shape,
        &saved.code,
        saved.words.as_slice(),
    );
    scene_text(alloc, &scene)
}
