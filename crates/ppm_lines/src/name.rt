//! The names of frames and blocks.
ghost use Rattle.std.specs.Prelude.{◌≡◌, ◌++◌, OnOk};
ghost use Rattle.ppm_lines.specs.Doing.{procedure_by, frame_text, fork_text, call_text};
ghost use Rattle.ppm_lines.specs.Doing.{run_text, block_text, branch_text, place_text};
ghost use Rattle.ppm_lines.specs.Texts.{frame_part_text, fork_part_text, part_text};

use crate::part::{ForkPart, FramePart, Part};
use crate::scene::Scene;
use ppm_cells::{Cell, Side};
use ppm_naming::{Names, push_cell, push_procedure, side_name};
use ppm_pieces::push_number;
use ppm_words::NoMemory;

/// Appends a word of letters and signs.
pub(crate) fn push_word(text: &mut Vec<u8>, word: &str) -> Result<(), NoMemory>
    ensures { OnOk result (text.new.items ≡ text.old.items ++ word.now) }
{
    text.extend_from_slice(word.as_bytes())?;
    Ok(())
}

/// Appends a procedure, if there is one.
pub(crate) fn push_named(
    text: &mut Vec<u8>,
    names: &Names,
    procedure: Option<u32>,
) -> Result<(), NoMemory>
    ensures { OnOk result (text.new.items ≡ text.old.items ++ procedure_by names.now procedure) }
{
    match procedure {
        None => push_word(text, "?"),
        Some(procedure) => push_procedure(text, names, procedure),
    }
}

/// Appends the name of a frame.
pub fn push_frame(text: &mut Vec<u8>, scene: &Scene, frame: u32) -> Result<(), NoMemory>
    ensures { OnOk result (text.new.items ≡ text.old.items ++ frame_text scene.now frame) }
{
    push_named(text, scene.names(), scene.procedure_of(frame))?;
    text.push(b'@')?;
    push_number(text, u64::from(frame))?;
    Ok(())
}

/// Appends the name of a fork block.
pub fn push_fork(text: &mut Vec<u8>, block: u32) -> Result<(), NoMemory>
    ensures { OnOk result (text.new.items ≡ text.old.items ++ fork_text block) }
{
    push_word(text, "fork@")?;
    push_number(text, u64::from(block))?;
    Ok(())
}

/// Appends the name of the block of a call.
fn push_call(text: &mut Vec<u8>, block: u32) -> Result<(), NoMemory>
    ensures { OnOk result (text.new.items ≡ text.old.items ++ call_text block) }
{
    push_word(text, "call@")?;
    push_number(text, u64::from(block))?;
    Ok(())
}

/// Appends a frame, and the capsule with which it goes on.
pub fn push_run(text: &mut Vec<u8>, scene: &Scene, frame: u32, copy: u32) -> Result<(), NoMemory>
    ensures { OnOk result (text.new.items ≡ text.old.items ++ run_text scene.now frame copy) }
{
    push_frame(text, scene, frame)?;
    text.push(b'.')?;
    let capsule = scene.word_at(u64::from(frame) + 2 + u64::from(copy));
    push_number(text, capsule)?;
    Ok(())
}

/// Appends a block that is built.
pub(crate) fn push_block(text: &mut Vec<u8>, scene: &Scene, block: u32) -> Result<(), NoMemory>
    ensures { OnOk result (text.new.items ≡ text.old.items ++ block_text scene.now block) }
{
    if scene.is_fork_block(block) {
        return push_fork(text, block);
    }
    push_call(text, block)
}

/// Appends a branch of a fork block.
pub fn push_branch(text: &mut Vec<u8>, block: u32, side: Side) -> Result<(), NoMemory>
    ensures { OnOk result (text.new.items ≡ text.old.items ++ branch_text block side) }
{
    push_fork(text, block)?;
    text.push(b'.')?;
    push_word(text, side_name(side))
}

/// Appends the name of a place.
pub fn push_place(text: &mut Vec<u8>, place: u32) -> Result<(), NoMemory>
    ensures { OnOk result (text.new.items ≡ text.old.items ++ place_text place) }
{
    push_word(text, "place.")?;
    push_number(text, u64::from(place))?;
    Ok(())
}

/// Appends the name of a word of a frame.
fn push_frame_part(text: &mut Vec<u8>, part: FramePart) -> Result<(), NoMemory>
    ensures { OnOk result (text.new.items ≡ text.old.items ++ frame_part_text part) }
{
    match part {
        FramePart::FrameLink => push_word(text, "link"),
        FramePart::Outcome => push_word(text, "outcome"),
        FramePart::FirstHeader => push_word(text, "header0"),
        FramePart::SecondHeader => push_word(text, "header1"),
        FramePart::GivenValue => push_word(text, "value"),
        FramePart::Target => push_word(text, "target"),
        FramePart::Slot(slot) => {
            push_word(text, "slot")?;
            push_number(text, u64::from(slot))?;
            Ok(())
        }
    }
}

/// The name of a word of a fork block.
fn fork_part_name(part: ForkPart) -> &'static str
    ensures { result.now ≡ fork_part_text part }
{
    match part {
        ForkPart::ForkLink => "link",
        ForkPart::Order => "order",
        ForkPart::LeftOutcome => "left",
        ForkPart::RightOutcome => "right",
        ForkPart::RightOffset => "offset",
    }
}

/// Appends the name of the word of a turn.
pub(crate) fn push_part(text: &mut Vec<u8>, scene: &Scene, part: Part) -> Result<(), NoMemory>
    ensures { OnOk result (text.new.items ≡ text.old.items ++ part_text scene.now part) }
{
    match part {
        Part::NoWord => push_word(text, "-"),
        Part::SomeHolder => push_word(text, "holder"),
        Part::OfMachine(cell) => push_cell(text, scene.names(), scene.lengths(), cell),
        Part::InFrame { frame, part } => {
            push_frame(text, scene, frame)?;
            text.push(b'.')?;
            push_frame_part(text, part)
        }
        Part::InFork { block, part } => {
            push_fork(text, block)?;
            text.push(b'.')?;
            push_word(text, fork_part_name(part))
        }
        Part::InCall { block } => {
            push_call(text, block)?;
            push_word(text, ".link")
        }
        Part::New { block, offset } => {
            push_word(text, "new@")?;
            push_number(text, u64::from(block))?;
            text.push(b'+')?;
            push_number(text, u64::from(offset))?;
            Ok(())
        }
        Part::LinkAt { at } | Part::Elsewhere { at } => {
            let word = Cell::BlockWord { address: at };
            push_cell(text, scene.names(), scene.lengths(), word)
        }
    }
}
