//! What refusals of listings mean, in words.
ghost use Rattle.std.specs.Prelude.{◌≡◌, ◌++◌, IfOk, OnOk};
ghost use Rattle.ppm_explain.specs.Meanings.{note_text};
ghost use Rattle.ppm_notes.specs.Meanings.{conflict_meaning, listing_meaning as listing_words, long_listing};

use ppm_explain::push_word;
use ppm_words::NoMemory;
use std::alloc::Global;

/// What a fault of a listing means, by its number.
#[tactic(auto, unfolding(crate::specs::Meanings::listing_meaning))]
pub(crate) fn listing_meaning(number: u32) -> &'static str
    ensures { result.now ≡ listing_words number }
{
    match number {
        1 =>
            "a line has one of its forms, with one blank between two words, numbers without zeros in front, and a line feed at its end",
        2 =>
            "a number of this line is out of its range: a register is `r0` to `r63`, a constant fits 64 bits, a slot is one of the procedure's, a trap is 1 to 4, a line of the source is 1 to 1048577, an array is below 64, `room` asks for 1 to 1048576 words, a procedure has 25 slots at most",
        3 => "a branch leads to a later instruction of its capsule; these count from 0",
        4 =>
            "the last instruction of a capsule is an end, and a capsule has one: `next`, `end`, `trap`, `call`, `callto`, `fork` or `forkto`",
        5 =>
            "`room` stands first in its capsule; `storenew` names a word below it; a call asks for 6 words and the callee's slots, a fork for 17 and the slots of both branches",
        6 =>
            "what this line names is not there, as no line below declares it, or is of another procedure; or it is one too many: 1024 procedures, 65535 capsules, 160 instructions of a capsule; or no capsule comes",
        _ => "",
    }
}

/// What is said of a listing that is too long.
pub(crate) fn long_words() -> &'static str
    ensures { result.now ≡ long_listing }
{
    "a listing has 536870912 bytes at most"
}

/// What a conflict means.
pub(crate) fn conflict_words() -> &'static str
    ensures { result.now ≡ conflict_meaning }
{
    "begun again after its write, the capsule would read what it wrote itself; with `next` between the two they are in two capsules"
}

/// Appends a note of some words.
pub(crate) fn push_note(text: &mut Vec<u8>, words: &str) -> Result<(), NoMemory>
    ensures { OnOk result (text.new.items ≡ text.old.items ++ note_text words.now) }
{
    push_word(text, "note: ")?;
    push_word(text, words)?;
    push_word(text, "\n")
}

/// A note alone.
pub(crate) fn note_of(alloc: Global, words: &str) -> Result<Vec<u8>, NoMemory>
    ensures { IfOk result (λ notes. notes.items ≡ note_text words.now) }
{
    let mut notes = Vec::new(alloc);
    push_note(&mut notes, words)?;
    Ok(notes)
}
