//! The lines that tell a run of strands.
ghost use Rattle.std.specs.Prelude.{◌≡◌, ◌++◌, OnOk, length, map};
ghost use Rattle.ppm_naming.specs.Cells.{index_text};
ghost use Rattle.ppm_answers.specs.Texts.{trap_name as name_of_trap};
ghost use Rattle.ppm_strands_command.specs.Lines.{asked_text, by_text, change_text, deed_text};
ghost use Rattle.ppm_strands_command.specs.Lines.{done_line, done_lines, fall_text, finish_text};
ghost use Rattle.ppm_strands_command.specs.Lines.{strand_text, told_text, turn_text, value_text};
ghost use Rattle.ppm_strands_command.specs.Lines.{word_text};
ghost use Rattle.ppm_strands_command.specs.Lines.{act_text, item_text, items_text, more_items_text};

use ppm_depth::Finish;
use ppm_interleaving::{Change, Deed};
use ppm_pieces::push_number;
use ppm_plan::{StrandAct, StrandItem};
use ppm_strand_runs::{Done, Fall};
use ppm_words::{NamedArray, NoMemory, Trap, of_word};
use std::alloc::Global;

/// Appends letters and signs.
pub(crate) fn push_word(text: &mut Vec<u8>, word: &str) -> Result<(), NoMemory>
    ensures { OnOk result (text.new.items ≡ text.old.items ++ word.now) }
{
    text.extend_from_slice(word.as_bytes())?;
    Ok(())
}

/// Appends an index in square brackets.
fn push_index(text: &mut Vec<u8>, index: u64) -> Result<(), NoMemory>
    ensures { OnOk result (text.new.items ≡ text.old.items ++ index_text index) }
{
    text.push(b'[')?;
    push_number(text, index)?;
    text.push(b']')?;
    Ok(())
}

/// Appends the name of a word of arrays that lie one after the other.
fn push_array_word(text: &mut Vec<u8>, arrays: &[NamedArray], word: u64) -> Result<(), NoMemory>
    ensures { OnOk result (text.new.items ≡ text.old.items ++ word_text arrays.now word) }
{
    let mut rest = arrays;
    let mut left = word;
    while let [array, others @ ..] = rest {
        let length = array.values.as_slice().len() as u64;
        if left < length {
            text.extend_from_slice(array.name.as_bytes())?;
            return push_index(text, left);
        }
        rest = others;
        left -= length;
    }
    push_word(text, "array")?;
    push_index(text, word)
}

/// Appends the number that a word stands for.
fn push_value(alloc: Global, text: &mut Vec<u8>, word: u64) -> Result<(), NoMemory>
    ensures { OnOk result (text.new.items ≡ text.old.items ++ value_text word) }
{
    let digits = of_word(word).to_string(alloc)?;
    text.extend_from_slice(digits.as_bytes())?;
    Ok(())
}

/// Appends what a word was, and what it is.
fn push_change(alloc: Global, text: &mut Vec<u8>, was: u64, is: u64) -> Result<(), NoMemory>
    ensures { OnOk result (text.new.items ≡ text.old.items ++ change_text was is) }
{
    push_value(alloc, text, was)?;
    text.push(b'>')?;
    push_value(alloc, text, is)?;
    Ok(())
}

/// Appends how a strand is called.
fn push_strand(text: &mut Vec<u8>, strand: u64) -> Result<(), NoMemory>
    ensures { OnOk result (text.new.items ≡ text.old.items ++ strand_text strand) }
{
    text.push(b's')?;
    push_number(text, strand)?;
    Ok(())
}

/// The name of a trap.
fn trap_name(trap: Trap) -> &'static str
    ensures { result.now ≡ name_of_trap trap }
{
    match trap {
        Trap::Overflow => "overflow",
        Trap::DivZero => "divzero",
        Trap::Index => "index",
        Trap::Split => "split",
    }
}

/// Appends how a strand is over.
fn push_finish(alloc: Global, text: &mut Vec<u8>, finish: Finish) -> Result<(), NoMemory>
    ensures { OnOk result (text.new.items ≡ text.old.items ++ finish_text finish) }
{
    match finish {
        Finish::Gave(value) => push_value(alloc, text, value),
        Finish::Trapped(trap, line) => {
            push_word(text, "trap(")?;
            push_word(text, trap_name(trap))?;
            text.push(b',')?;
            push_number(text, u64::from(line))?;
            text.push(b')')?;
            Ok(())
        }
    }
}

/// Appends what others saw: what it was, of what, and a value.
fn push_deed(
    alloc: Global,
    text: &mut Vec<u8>,
    arrays: &[NamedArray],
    deed: Deed,
) -> Result<(), NoMemory>
    ensures { OnOk result (text.new.items ≡ text.old.items ++ deed_text arrays.now deed) }
{
    match deed {
        Deed::Changed { word, was, is } => {
            push_word(text, "change ")?;
            push_array_word(text, arrays, word)?;
            text.push(b' ')?;
            push_change(alloc, text, was, is)
        }
        Deed::Forked { first, branches } => {
            push_word(text, "fork ")?;
            push_strand(text, first)?;
            text.push(b' ')?;
            push_number(text, branches)?;
            Ok(())
        }
        Deed::Finished(finish) => {
            push_word(text, "end - ")?;
            push_finish(alloc, text, finish)
        }
    }
}

/// Appends a turn, and whose it was.
fn push_turn(text: &mut Vec<u8>, turn: u64, strand: u64) -> Result<(), NoMemory>
    ensures { OnOk result (text.new.items ≡ text.old.items ++ turn_text turn strand) }
{
    push_number(text, turn)?;
    text.push(b' ')?;
    push_strand(text, strand)?;
    Ok(())
}

/// Appends the line of a turn of which others saw something.
fn push_done(
    alloc: Global,
    text: &mut Vec<u8>,
    arrays: &[NamedArray],
    done: Done,
) -> Result<(), NoMemory>
    ensures { OnOk result (text.new.items ≡ text.old.items ++ done_line arrays.now done) }
{
    push_turn(text, done.turn, u64::from(done.strand))?;
    text.push(b' ')?;
    push_deed(alloc, text, arrays, done.deed)?;
    text.push(b'\n')?;
    Ok(())
}

/// Appends the lines of all such turns.
pub(crate) fn push_all_done(
    alloc: Global,
    text: &mut Vec<u8>,
    arrays: &[NamedArray],
    done: &[Done],
) -> Result<(), NoMemory>
    ensures { OnOk result (text.new.items ≡ text.old.items ++ done_lines arrays.now done.now) }
{
    let mut left = done;
    while let [first, rest @ ..] = left {
        push_done(alloc, text, arrays, *first)?;
        left = rest;
    }
    Ok(())
}

/// Appends a change that was asked for.
fn push_asked(
    alloc: Global,
    text: &mut Vec<u8>,
    arrays: &[NamedArray],
    change: Change,
) -> Result<(), NoMemory>
    ensures { OnOk result (text.new.items ≡ text.old.items ++ asked_text arrays.now change) }
{
    match change {
        Change::Puts { word, value } => {
            push_word(text, "put ")?;
            push_array_word(text, arrays, word)?;
            text.push(b' ')?;
            push_value(alloc, text, value)
        }
        Change::Exchanges { word, old, new } => {
            push_word(text, "cam ")?;
            push_array_word(text, arrays, word)?;
            text.push(b' ')?;
            push_change(alloc, text, old, new)
        }
    }
}

/// Appends what others saw of a turn, if they saw something.
fn push_told(
    alloc: Global,
    text: &mut Vec<u8>,
    arrays: &[NamedArray],
    deed: Option<Deed>,
) -> Result<(), NoMemory>
    ensures { OnOk result (text.new.items ≡ text.old.items ++ told_text arrays.now deed) }
{
    match deed {
        Some(deed) => {
            text.push(b' ')?;
            push_deed(alloc, text, arrays, deed)
        }
        None => Ok(()),
    }
}

/// Appends the line of the turn after which a change did not stand.
fn push_by(
    alloc: Global,
    text: &mut Vec<u8>,
    arrays: &[NamedArray],
    fall: Fall,
) -> Result<(), NoMemory>
    ensures { OnOk result (text.new.items ≡ text.old.items ++ by_text arrays.now fall) }
{
    push_word(text, "by: ")?;
    push_turn(text, fall.turn, u64::from(fall.strand))?;
    push_told(alloc, text, arrays, fall.deed)?;
    text.push(b'\n')?;
    Ok(())
}

/// Appends the two lines of a fall: the turn in which the change was made that did not stand, and
/// the turn after which.
pub(crate) fn push_fall(
    alloc: Global,
    text: &mut Vec<u8>,
    arrays: &[NamedArray],
    fall: Fall,
) -> Result<(), NoMemory>
    ensures { OnOk result (text.new.items ≡ text.old.items ++ fall_text arrays.now fall) }
{
    push_word(text, "fallen: ")?;
    push_turn(text, fall.made, fall.fallen.strand as u64)?;
    push_word(text, " change ")?;
    push_number(text, fall.fallen.number as u64)?;
    text.push(b' ')?;
    push_asked(alloc, text, arrays, fall.fallen.change)?;
    text.push(b'\n')?;
    push_by(alloc, text, arrays, fall)
}

/// Appends an act of a schedule.
fn push_act(text: &mut Vec<u8>, act: StrandAct) -> Result<(), NoMemory>
    ensures { OnOk result (text.new.items ≡ text.old.items ++ act_text act) }
{
    match act {
        StrandAct::Step { strand } => {
            push_number(text, u64::from(strand))?;
            Ok(())
        }
        StrandAct::Fails { strand } => {
            push_number(text, u64::from(strand))?;
            push_word(text, "!s")
        }
    }
}

/// Appends an item of a schedule.
fn push_item(text: &mut Vec<u8>, item: StrandItem) -> Result<(), NoMemory>
    ensures { OnOk result (text.new.items ≡ text.old.items ++ item_text item) }
{
    push_act(text, item.act)?;
    if item.times == 1 {
        return Ok(());
    }
    text.push(b'*')?;
    push_number(text, u64::from(item.times))?;
    Ok(())
}

/// Appends items of a schedule that stand after others.
fn push_more_items(text: &mut Vec<u8>, items: &[StrandItem]) -> Result<(), NoMemory>
    ensures { OnOk result (text.new.items ≡ text.old.items ++ more_items_text items.now) }
{
    let mut left = items;
    while let [item, rest @ ..] = left {
        text.push(b',')?;
        push_item(text, *item)?;
        left = rest;
    }
    Ok(())
}

/// Appends a schedule.
pub(crate) fn push_items(text: &mut Vec<u8>, items: &[StrandItem]) -> Result<(), NoMemory>
    ensures { OnOk result (text.new.items ≡ text.old.items ++ items_text items.now) }
{
    match items {
        [] => push_word(text, "none"),
        [item, rest @ ..] => {
            push_item(text, *item)?;
            push_more_items(text, rest)
        }
    }
}
