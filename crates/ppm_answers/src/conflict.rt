//! Why a code is refused, and the lines that tell it.
ghost use Rattle.std.specs.Prelude.{◌≡◌, ◌++◌, IfOk};
ghost use Rattle.std.specs.String.{string_bytes};
ghost use Rattle.ppm_answers.specs.Texts.{class_text, conflict_words, conflict_text};
ghost use Rattle.ppm_answers.specs.Texts.{conflict_at_text, lines_end, listing_text};

use std::alloc::{AllocError, Global};

/// The fault for which a text is the listing of no code.
#[derive(Clone, Copy, Debug, PartialEq, Eq)]
pub struct ListingRefusal {
    /// The fault's number, from 1 to 6.
    pub number: u32,
    /// The line of the fault, from 1.
    pub line: u32,
}

/// The words that a capsule reads and writes, as far as its conflicts tell them apart.
#[derive(Clone, Copy, Debug, PartialEq, Eq)]
pub enum Class {
    /// This slot of the frame as it was when the capsule began.
    Cur(u32),
    /// This word of the new block.
    New(u32),
    /// The value that the frame gives.
    Value,
    /// The counter of block words.
    Room,
    /// All words of arrays.
    Array,
}

/// A write-after-read conflict of a code. All numbers count from 0.
#[derive(Clone, Copy, Debug, PartialEq, Eq)]
pub struct Conflict {
    /// The capsule.
    pub capsule: u32,
    /// Its instruction that reads.
    pub read_at: u32,
    /// Its instruction that then writes.
    pub write_at: u32,
    /// The class of the words that are read and written.
    pub class: Class,
}

/// The line of a conflict.
pub(crate) fn conflict_text_of(alloc: Global, conflict: Conflict) -> Result<Vec<u8>, AllocError>
    ensures { IfOk result (λ text. text.items ≡ conflict_text conflict) }
{
    let mut line = conflict_words_of(alloc, conflict)?;
    line.push(b'\n')?;
    Ok(line)
}

/// The line of a conflict, with the lines of its two instructions.
pub(crate) fn conflict_at_text_of(
    alloc: Global,
    conflict: Conflict,
    read: u64,
    write: u64,
) -> Result<Vec<u8>, AllocError>
    ensures { IfOk result (λ text. text.items ≡ conflict_at_text conflict read write) }
{
    let mut line = conflict_words_of(alloc, conflict)?;
    let lines = lines_end_of(alloc, read, write)?;
    line.extend_from_slice(&lines)?;
    Ok(line)
}

/// The end of a line with the lines of two instructions.
fn lines_end_of(alloc: Global, read: u64, write: u64) -> Result<Vec<u8>, AllocError>
    ensures { IfOk result (λ text. text.items ≡ lines_end read write) }
{
    let text = format!(in alloc; " lines {read} {write}\n")?;
    Ok(text.into_bytes())
}

/// The words of a conflict: its capsule, its two instructions, and its class.
fn conflict_words_of(alloc: Global, conflict: Conflict) -> Result<Vec<u8>, AllocError>
    ensures { IfOk result (λ text. text.items ≡ conflict_words conflict) }
{
    let class = class_text_of(alloc, conflict.class)?;
    let Conflict {
        capsule,
        read_at,
        write_at,
        ..
    } = conflict;
    let words = format!(in alloc;
        "conflict: capsule {capsule} read {read_at} write {write_at} class {class}"
    )?;
    Ok(words.into_bytes())
}

/// The name of a class, with its number.
pub(crate) fn class_text_of(alloc: Global, class: Class) -> Result<String, AllocError>
    ensures { IfOk result (λ text. string_bytes text ≡ class_text class) }
{
    match class {
        Class::Cur(slot) => format!(in alloc; "cur {slot}"),
        Class::New(word) => format!(in alloc; "new {word}"),
        Class::Value => String::from_str(alloc, "value"),
        Class::Room => String::from_str(alloc, "room"),
        Class::Array => String::from_str(alloc, "array"),
    }
}

/// The line of a text that is no listing.
pub(crate) fn listing_text_of(alloc: Global, refusal: ListingRefusal) -> Result<Vec<u8>, AllocError>
    ensures { IfOk result (λ text. text.items ≡ listing_text refusal) }
{
    let ListingRefusal { number, line } = refusal;
    let text = format!(in alloc; "listing refused: {number} line {line}\n")?;
    Ok(text.into_bytes())
}
