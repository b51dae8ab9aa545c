//! What a run comes to, and the lines that tell it.
ghost use Rattle.std.specs.Prelude.{◌≡◌, ◌++◌, IfOk, OnOk};
ghost use Rattle.std.specs.List.{flat_map};
ghost use Rattle.ppm_answers.specs.Texts.{arrays_text, array_text, value_text, trap_text};
ghost use Rattle.ppm_answers.specs.Texts.{trap_name as name_of_trap};
ghost use Rattle.ppm_answers.specs.Texts.{unfinished_text, room_text, broken_text};

use ppm_words::{NamedArray, Trap};
use std::alloc::{AllocError, Global};

/// The arrays, a line each.
pub(crate) fn arrays_text_of(alloc: Global, arrays: &[NamedArray]) -> Result<Vec<u8>, AllocError>
    ensures { IfOk result (λ text. text.items ≡ arrays_text arrays.now) }
{
    let mut text = Vec::new(alloc);
    for array in arrays {
        push_array(alloc, &mut text, array)?;
    }
    Ok(text)
}

/// Appends an array's name, its values and a line feed.
fn push_array(alloc: Global, text: &mut Vec<u8>, array: &NamedArray) -> Result<(), AllocError>
    ensures { OnOk result (text.new.items ≡ text.old.items ++ array_text array.now) }
{
    text.extend_from_slice(array.name.as_bytes())?;
    push_values(alloc, text, array.values.as_slice())?;
    text.push(b'\n')?;
    Ok(())
}

/// Appends a space and the value for each of the values.
fn push_values(alloc: Global, text: &mut Vec<u8>, values: &[i64]) -> Result<(), AllocError>
    ensures { OnOk result (text.new.items ≡ text.old.items ++ flat_map value_text values.now) }
{
    for value in values {
        text.push(b' ')?;
        let digits = value.to_string(alloc)?;
        text.extend_from_slice(digits.as_bytes())?;
    }
    Ok(())
}

/// The line of a trap.
pub(crate) fn trap_text_of(alloc: Global, trap: Trap, line: u32) -> Result<Vec<u8>, AllocError>
    ensures { IfOk result (λ text. text.items ≡ trap_text trap line) }
{
    let name = trap_name(trap);
    let text = format!(in alloc; "trap {name} line {line}\n")?;
    Ok(text.into_bytes())
}

/// The line of a trap, with the notes that explain it.
pub(crate) fn explained_trap_of(
    alloc: Global,
    trap: Trap,
    line: u32,
    notes: &[u8],
) -> Result<Vec<u8>, AllocError>
    ensures { IfOk result (λ text. text.items ≡ trap_text trap line ++ notes.now) }
{
    let mut text = trap_text_of(alloc, trap, line)?;
    text.extend_from_slice(notes)?;
    Ok(text)
}

/// The name of a trap.
fn trap_name(trap: Trap) -> &'static str
    ensures { result.now ≡ name_of_trap trap }
{
    match trap {
        Trap::Overflow => "overflow",
        Trap::DivZero => "divzero",
        Trap::Index => "index",
        Trap::Split => "split",
    }
}

/// The line of a replay that did not end within its acts.
pub(crate) fn unfinished_text_of(alloc: Global, acts: u64) -> Result<Vec<u8>, AllocError>
    ensures { IfOk result (λ text. text.items ≡ unfinished_text acts) }
{
    let text = format!(in alloc; "unfinished after {acts} turns\n")?;
    Ok(text.into_bytes())
}

/// The line of a place that has no room left.
pub(crate) fn room_text_of(alloc: Global, place: u32) -> Result<Vec<u8>, AllocError>
    ensures { IfOk result (λ text. text.items ≡ room_text place) }
{
    let text = format!(in alloc; "out of room: place {place}\n")?;
    Ok(text.into_bytes())
}

/// The line of words that are broken at a place.
pub(crate) fn broken_text_of(alloc: Global, place: u32) -> Result<Vec<u8>, AllocError>
    ensures { IfOk result (λ text. text.items ≡ broken_text place) }
{
    let text = format!(in alloc; "saved words broken: place {place}\n")?;
    Ok(text.into_bytes())
}
