//! Word steps of a processor: which words a row changes, cell by cell.
ghost use Rattle.std.specs.Prelude.{◌≡◌, ◌<◌, IfOk, length};
ghost use Rattle.ppm_cells.specs.Cells.{word_count};
ghost use Rattle.ppm_step.specs.Locals.{IsLocal};

use crate::cells::{cell_of, parts_of, word_of};
use crate::said::{Said, number_at};
use ppm_cells::Shape;
use ppm_code::Code;
use ppm_listing_reader::{ListingError, read_listing};
use ppm_sheets::{Call, Fault};
use ppm_step::{Local, Want, address, cell_is_there};
use std::alloc::Global;

/// How many words the machine has of which rows are tried: two processors, with four slots and 64
/// words of room each, and two array words.
const WORDS: usize = 153;

/// `step TAKEOVER COUNT`: whether processor 0 makes the words that are wanted of those that are
/// loaded, in so many word steps from the load of its carry word on, each with victim 1. The first
/// line of the input loads words, the second one has those that are wanted to change, and then
/// comes the code's listing.
pub(crate) fn step(alloc: Global, call: &Call) -> Result<Said, Fault> {
    let shape = shape_of(call)?;
    let count = number_at(call, 2)?;
    let (before, rest) = split_line(text_of(&call.input)?)?;
    let (after, listing) = split_line(rest)?;
    let code = code_of(alloc, listing)?;
    let mut words = [0; WORDS];
    set_all(alloc, &shape, &mut words, before)?;
    let mut wanted = words;
    set_all(alloc, &shape, &mut wanted, after)?;
    make_steps(&shape, &code, &mut words, count);
    differences(alloc, &words, &wanted)
}

/// The shape of the machine, with the takeover that the second word names.
fn shape_of(call: &Call) -> Result<Shape, Fault>
    ensures two { IfOk result (λ shape. 1 < shape.processors) }
    ensures words { IfOk result (λ shape. word_count shape ≡ 153) }
{
    let Some(shape) = Shape::new(2, 64, 4, 2) else {
        return Err(Fault::Line("no such shape"));
    };
    let takeover = match call.words.get(1) {
        Some(word) => word.as_str(),
        None => "",
    };
    match takeover {
        "place" => Ok(shape),
        "entry" => Ok(shape.stealing()),
        _ => Err(Fault::Line("a takeover is place or entry")),
    }
}

/// The text of an input.
fn text_of(input: &[u8]) -> Result<&str, Fault> {
    match std::str::from_utf8(input) {
        Ok(text) => Ok(text),
        Err(_) => Err(Fault::Line("an input that is no text")),
    }
}

/// The first line of a text, and what follows it.
fn split_line(text: &str) -> Result<(&str, &str), Fault> {
    match text.split_once('\n') {
        Some(lines) => Ok(lines),
        None => Err(Fault::Line("two lines of words are wanted before a listing")),
    }
}

/// The code of a listing.
fn code_of(alloc: Global, listing: &str) -> Result<Code, Fault> {
    match read_listing(alloc, listing.as_bytes()) {
        Ok(code) => Ok(code),
        Err(ListingError::NoMemory) => Err(Fault::NoMemory),
        Err(_) => Err(Fault::Line("a listing is wanted after two lines of words")),
    }
}

/// Sets the words of a line: `CELL: WORD`, with a semicolon between two of them.
fn set_all(alloc: Global, shape: &Shape, words: &mut [u64], line: &str) -> Result<(), Fault>
    ensures { length words.new ≡ length words.old }
{
    for piece in line.split(';') {
        if let Some((cell, word)) = piece.split_once(':') {
            set(alloc, shape, words, cell, word)?;
        }
    }
    Ok(())
}

/// Sets a word.
fn set(alloc: Global, shape: &Shape, words: &mut [u64], cell: &str, word: &str) -> Result<(), Fault>
    ensures { length words.new ≡ length words.old }
{
    let cell = cell_of(&parts_of(alloc, cell)?)?;
    let word = word_of(&parts_of(alloc, word)?)?;
    if !cell_is_there(shape, cell) {
        return Err(Fault::Line("a cell that is not there"));
    }
    if let Some(old) = words.get_mut(address(shape, cell) as usize) {
        *old = word;
    }
    Ok(())
}

/// Makes word steps of processor 0, which begins without registers.
fn make_steps(shape: &Shape, code: &Code, words: &mut [u64], count: u32)
    requires victim { 1 < shape.now.processors }
    requires words { length words.old ≡ word_count shape.now }
    ensures { length words.new ≡ length words.old }
{
    let mut local = Local::lost(0);
    for _ in 0..count {
        make_step(shape, code, words, &mut local);
    }
}

/// Makes a word step.
fn make_step(shape: &Shape, code: &Code, words: &mut [u64], local: &mut Local)
    requires local { IsLocal shape.now code.now local.old }
    requires victim { 1 < shape.now.processors }
    requires words { length words.old ≡ word_count shape.now }
    ensures local_stays { IsLocal shape.now code.now local.new }
    ensures words_stay { length words.new ≡ length words.old }
{
    let mut found = 0;
    match local.want(shape, code, 1) {
        Want::Loads(at) => found = words[at as usize],
        Want::Stores(at, word) => words[at as usize] = word,
        Want::Exchanges(at, old, new) => if words[at as usize] == old {
            words[at as usize] = new;
        },
        Want::Nothing => {}
    }
    local.observe(shape, code, 1, found);
}

/// `as wanted`, or a line for each word that is not what was wanted.
fn differences(alloc: Global, words: &[u64], wanted: &[u64]) -> Result<Said, Fault> {
    let mut text = String::new(alloc);
    for (at, word) in words.iter().enumerate() {
        if let Some(other) = wanted.get(at) {
            if word != other {
                text.push_str(&format!(in alloc; "word {at} is {word}, not {other}\n")?)?;
            }
        }
    }
    if text.is_empty() {
        text.push_str("as wanted\n")?;
    }
    Said::of_text(alloc, &text)
}
