//! Fixed texts and numbers, one after the other.
ghost use Rattle.std.specs.Prelude.{◌≡◌, ◌++◌, OnOk, decimal};
ghost use Rattle.ppm_picture.specs.Markup.{in_threes, markup_text, part_text};

use ppm_pieces::push_number;
use ppm_words::NoMemory;
use std::alloc::Global;

/// A part of a text.
#[derive(Clone, Copy, Debug)]
pub enum Markup {
    /// It stands as it is.
    Fixed(&'static str),
    /// A number in decimal.
    Number(u64),
    /// A number in decimal, its digits in threes.
    Grouped(u64),
}

/// Appends digits with a comma before each three that follow.
fn push_digits(text: &mut Vec<u8>, digits: &[u8]) -> Result<(), NoMemory>
    ensures { OnOk result (text.new.items ≡ text.old.items ++ in_threes digits.now) }
{
    let mut left = digits;
    while let [digit, rest @ ..] = left {
        text.push(*digit)?;
        if rest.len() > 0 && rest.len() % 3 == 0 {
            text.push(b',')?;
        }
        left = rest;
    }
    Ok(())
}

/// Appends a number in decimal, its digits in threes.
fn push_grouped(alloc: Global, text: &mut Vec<u8>, number: u64) -> Result<(), NoMemory>
    ensures { OnOk result (text.new.items ≡ text.old.items ++ in_threes (decimal number)) }
{
    let digits = number.to_string(alloc)?;
    push_digits(text, digits.as_bytes())
}

/// Appends a part.
fn push_part(alloc: Global, text: &mut Vec<u8>, part: Markup) -> Result<(), NoMemory>
    ensures { OnOk result (text.new.items ≡ text.old.items ++ part_text part) }
{
    match part {
        Markup::Fixed(word) => text.extend_from_slice(word.as_bytes())?,
        Markup::Number(number) => push_number(text, number)?,
        Markup::Grouped(number) => push_grouped(alloc, text, number)?,
    }
    Ok(())
}

/// Appends these parts. `Err` only where memory is refused.
pub fn push_markup(alloc: Global, text: &mut Vec<u8>, parts: &[Markup]) -> Result<(), NoMemory>
    ensures { OnOk result (text.new.items ≡ text.old.items ++ markup_text parts.now) }
{
    let mut left = parts;
    while let [part, rest @ ..] = left {
        push_part(alloc, text, *part)?;
        left = rest;
    }
    Ok(())
}
