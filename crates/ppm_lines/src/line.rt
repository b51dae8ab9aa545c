//! The line of a turn.
ghost use Rattle.std.specs.Prelude.{◌≡◌, ◌++◌, ◌∷◌, OnOk, decimal};
ghost use Rattle.ppm_lines.specs.Doing.{of_text};
ghost use Rattle.ppm_lines.specs.Line.{field, carried_text, who_fields, line_at};
ghost use Rattle.ppm_lines.specs.Line.{row_fields, step_fields, marks as marks_of};
ghost use Rattle.ppm_lines.specs.Texts.{part_text};
ghost use Rattle.ppm_step.specs.Among.{IsTurnAmong};
ghost use Rattle.ppm_step.specs.Locals.{IsLocal, standing_of};
ghost use Rattle.ppm_step.specs.Told.{place_of};

use crate::column::fill;
use crate::doing::{Doing, doing_of, push_of, row_text};
use crate::mark::push_marks;
use crate::marking::marks_at;
use crate::name::{push_part, push_word};
use crate::part::Part;
use crate::place::{coming, part_of};
use crate::scene::Scene;
use crate::value::{before, part_kind, push_worth, step_text, stores_link};
use ppm_cells::UNKNOWN_PLACE;
use ppm_pieces::push_number;
use ppm_step::{Local, Turn};
use ppm_words::NoMemory;
use std::alloc::Global;

/// Appends a field with a number.
fn push_number_field(text: &mut Vec<u8>, width: usize, number: u64) -> Result<(), NoMemory>
    ensures { OnOk result (text.new.items ≡ text.old.items ++ field width (decimal number)) }
{
    let start = text.len();
    push_number(text, number)?;
    fill(text, start, width)
}

/// Appends the field of a processor.
fn push_processor(text: &mut Vec<u8>, processor: u32) -> Result<(), NoMemory>
    ensures { OnOk result (text.new.items
        ≡ text.old.items ++ field 3 (112 ∷ decimal processor)) }
{
    let start = text.len();
    text.push(b'p')?;
    push_number(text, u64::from(processor))?;
    fill(text, start, 3)
}

/// Appends a field with a word.
fn push_word_field(text: &mut Vec<u8>, width: usize, word: &str) -> Result<(), NoMemory>
    ensures { OnOk result (text.new.items ≡ text.old.items ++ field width word.now) }
{
    let start = text.len();
    push_word(text, word)?;
    fill(text, start, width)
}

/// Appends the field of the place that a processor carries.
fn push_carried(text: &mut Vec<u8>, place: u32) -> Result<(), NoMemory>
    ensures { OnOk result (text.new.items ≡ text.old.items ++ field 2 (carried_text place)) }
{
    if place == UNKNOWN_PLACE {
        return push_word_field(text, 2, "-");
    }
    push_number_field(text, 2, u64::from(place))
}

/// The place that a processor carries.
fn carried(scene: &Scene, local: &Local) -> u32
    ensures { result
        ≡ place_of (standing_of scene.now.shape scene.now.code local.now) }
{
    let _ = scene.shape();
    local.place()
}

/// Appends the fields of how many turns came before, of the processor and of its place.
fn push_who(text: &mut Vec<u8>, number: u64, processor: u32, place: u32) -> Result<(), NoMemory>
    ensures { OnOk result (text.new.items ≡ text.old.items ++ who_fields number processor place) }
{
    push_number_field(text, 6, number)?;
    push_processor(text, processor)?;
    push_carried(text, place)
}

/// Appends the field of what a row is of.
fn push_of_field(text: &mut Vec<u8>, scene: &Scene, doing: Doing) -> Result<(), NoMemory>
    ensures { OnOk result (text.new.items ≡ text.old.items ++ field 16 (of_text scene.now doing)) }
{
    let start = text.len();
    push_of(text, scene, doing)?;
    fill(text, start, 16)
}

/// Appends the fields of where a processor stands.
fn push_row(text: &mut Vec<u8>, scene: &Scene, local: &Local, turn: Turn) -> Result<(), NoMemory>
    ensures { OnOk result (text.new.items
        ≡ text.old.items ++ row_fields scene.now turn (standing_of scene.now.shape scene.now.code local.now)) }
{
    let doing = doing_of(local);
    push_word_field(text, 6, row_text(doing))?;
    push_of_field(text, scene, doing)
}

/// Appends the field of the word of a turn.
fn push_part_field(text: &mut Vec<u8>, scene: &Scene, part: Part) -> Result<(), NoMemory>
    ensures { OnOk result (text.new.items
        ≡ text.old.items ++ field 18 (part_text scene.now part)) }
{
    let start = text.len();
    push_part(text, scene, part)?;
    fill(text, start, 18)
}

/// Appends what a turn does, with which word and values.
fn push_step(
    alloc: Global,
    text: &mut Vec<u8>,
    scene: &Scene,
    local: &Local,
    turn: Turn,
) -> Result<(), NoMemory>
    requires local { IsLocal scene.now.shape scene.now.code local.now }
    requires own { local.now.own ≡ turn.processor }
    requires among { IsTurnAmong scene.now.shape.processors turn }
    ensures { OnOk result (text.new.items
        ≡ text.old.items ++ step_fields scene.now turn (standing_of scene.now.shape scene.now.code local.now)) }
{
    let want = coming(scene, local, turn);
    let found = before(scene, want);
    push_word_field(text, 5, step_text(found, turn.act, want))?;
    let part = part_of(scene, local, turn);
    push_part_field(text, scene, part)?;
    let kind = part_kind(stores_link(scene, local), part);
    push_worth(alloc, text, kind, found, turn.act, want)
}

/// Appends the marks of a turn.
fn push_marked(text: &mut Vec<u8>, scene: &Scene, local: &Local, turn: Turn) -> Result<(), NoMemory>
    requires { IsLocal scene.now.shape scene.now.code local.now }
    ensures { OnOk result (text.new.items
        ≡ text.old.items ++ marks_of scene.now turn (standing_of scene.now.shape scene.now.code local.now)) }
{
    let marks = marks_at(scene.words(), scene.shape(), scene.code(), local, turn.act);
    push_marks(text, marks)
}

/// Appends the line of a turn that comes after so many, where `local` is its processor before it.
/// `Err` only where memory is refused.
pub fn push_line(
    alloc: Global,
    text: &mut Vec<u8>,
    scene: &Scene,
    number: u64,
    local: &Local,
    turn: Turn,
) -> Result<(), NoMemory>
    requires local { IsLocal scene.now.shape scene.now.code local.now }
    requires own { local.now.own ≡ turn.processor }
    requires among { IsTurnAmong scene.now.shape.processors turn }
    ensures { OnOk result (text.new.items
        ≡ text.old.items ++ line_at scene.now turn (standing_of scene.now.shape scene.now.code local.now) number) }
{
    push_who(text, number, turn.processor, carried(scene, local))?;
    push_row(text, scene, local, turn)?;
    push_step(alloc, text, scene, local, turn)?;
    push_marked(text, scene, local, turn)?;
    text.push(b'\n')?;
    Ok(())
}
