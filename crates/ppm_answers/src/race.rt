//! A race of a code with its input, and the lines that tell it.
ghost use Rattle.std.specs.Prelude.{◌≡◌, IfOk};
ghost use Rattle.ppm_answers.specs.Texts.{race_text, word_line, fork_line, left_line, right_line};
ghost use Rattle.ppm_answers.specs.Texts.{touch_name as name_of_touch};

use ppm_words::Name;
use std::alloc::{AllocError, Global};

/// How a capsule touches a word.
#[derive(Clone, Copy, Debug, PartialEq, Eq)]
pub enum Touch {
    /// It reads the word.
    Read,
    /// It writes the word.
    Write,
}

/// The capsule that opened a fork.
#[derive(Clone, Copy, Debug, PartialEq, Eq)]
pub struct Opener {
    /// Which capsule of the depth-first run it is, from 1.
    pub run: u64,
    /// Its number in the listing, from 0.
    pub capsule: u32,
}

/// A capsule of a fork's left branch that touched a word.
#[derive(Clone, Copy, Debug, PartialEq, Eq)]
pub struct Visit {
    /// Which capsule of the depth-first run it is, from 1.
    pub run: u64,
    /// Its number in the listing, from 0.
    pub capsule: u32,
    /// How it touched the word.
    pub touch: Touch,
}

/// An instruction of a fork's right branch that touches a word.
#[derive(Clone, Copy, Debug, PartialEq, Eq)]
pub struct Touching {
    /// Which capsule of the depth-first run has it, from 1.
    pub run: u64,
    /// The capsule's number in the listing, from 0.
    pub capsule: u32,
    /// The number of the instruction in its capsule, from 0.
    pub at: u32,
    /// The line of the instruction in the text, from 1.
    pub line: u64,
    /// How it touches the word.
    pub touch: Touch,
}

/// A race: both branches of a fork touch one word of an array, and one of them writes it.
#[derive(Debug, Drop)]
pub struct Race {
    /// The name of the array.
    pub array: Name,
    /// The index of the word in the array, from 0.
    pub index: u64,
    /// The capsule that opened the fork.
    pub fork: Opener,
    /// The capsule of the left branch.
    pub left: Visit,
    /// The instruction of the right branch.
    pub right: Touching,
}

/// The four lines of a race.
pub(crate) fn race_text_of(alloc: Global, race: &Race) -> Result<Vec<u8>, AllocError>
    ensures { IfOk result (λ text. text.items ≡ race_text race.now) }
{
    let mut text = word_line_of(alloc, &race.array, race.index)?;
    let fork = fork_line_of(alloc, race.fork)?;
    text.extend_from_slice(&fork)?;
    let left = left_line_of(alloc, race.left)?;
    text.extend_from_slice(&left)?;
    let right = right_line_of(alloc, race.right)?;
    text.extend_from_slice(&right)?;
    Ok(text)
}

/// The line of the word on which a race is.
fn word_line_of(alloc: Global, array: &Name, index: u64) -> Result<Vec<u8>, AllocError>
    ensures { IfOk result (λ text. text.items ≡ word_line array.now index) }
{
    let mut text = Vec::from_slice(alloc, b"race: word ")?;
    text.extend_from_slice(array.as_bytes())?;
    let end = format!(in alloc; " {index}\n")?;
    text.extend_from_slice(end.as_bytes())?;
    Ok(text)
}

/// The line of the capsule that opened the fork.
fn fork_line_of(alloc: Global, fork: Opener) -> Result<Vec<u8>, AllocError>
    ensures { IfOk result (λ text. text.items ≡ fork_line fork) }
{
    let Opener { run, capsule } = fork;
    let line = format!(in alloc; "fork: run {run} capsule {capsule}\n")?;
    Ok(line.into_bytes())
}

/// The line of the capsule of the left branch.
fn left_line_of(alloc: Global, left: Visit) -> Result<Vec<u8>, AllocError>
    ensures { IfOk result (λ text. text.items ≡ left_line left) }
{
    let touch = touch_name(left.touch);
    let Visit { run, capsule, .. } = left;
    let line = format!(in alloc; "left: run {run} capsule {capsule} {touch}\n")?;
    Ok(line.into_bytes())
}

/// The line of the instruction of the right branch.
fn right_line_of(alloc: Global, right: Touching) -> Result<Vec<u8>, AllocError>
    ensures { IfOk result (λ text. text.items ≡ right_line right) }
{
    let touch = touch_name(right.touch);
    let Touching {
        run,
        capsule,
        at,
        line,
        ..
    } = right;
    let text = format!(in alloc;
        "right: run {run} capsule {capsule} at {at} line {line} {touch}\n"
    )?;
    Ok(text.into_bytes())
}

/// The word for a touch.
fn touch_name(touch: Touch) -> &'static str
    ensures { result.now ≡ name_of_touch touch }
{
    match touch {
        Touch::Read => "read",
        Touch::Write => "write",
    }
}
