//! The values of words as text.
ghost use Rattle.std.specs.Prelude.{◌≡◌, ◌++◌, OnOk, decimal};
ghost use Rattle.std.specs.Fmt.{signed_decimal};
ghost use Rattle.ppm_words.specs.TwosComplement.{value_of};
ghost use Rattle.ppm_naming.specs.Values.{order_text, entry_word_text, holder_word_text};
ghost use Rattle.ppm_naming.specs.Values.{message_text, value_text};

use crate::kind::WordKind;
use crate::numbers::push_word;
use crate::words::{push_entry, push_finish, push_holder, push_lead, push_restart};
use ppm_cells::{Entry, Finish, Holder, Link, Restart};
use ppm_pieces::push_number;
use ppm_words::{NoMemory, of_word};
use std::alloc::Global;

/// Appends a number in decimal.
fn push_decimal(text: &mut Vec<u8>, word: u64) -> Result<(), NoMemory>
    ensures { OnOk result (text.new.items ≡ text.old.items ++ decimal word) }
{
    push_number(text, word)?;
    Ok(())
}

/// Appends the signed number that a word stands for.
fn push_signed(alloc: Global, text: &mut Vec<u8>, word: u64) -> Result<(), NoMemory>
    ensures { OnOk result (text.new.items ≡ text.old.items ++ signed_decimal (value_of word)) }
{
    let digits = of_word(word).to_string(alloc)?;
    text.extend_from_slice(digits.as_bytes())?;
    Ok(())
}

/// Appends which branch of a fork came first to its join.
fn push_order(text: &mut Vec<u8>, word: u64) -> Result<(), NoMemory>
    ensures { OnOk result (text.new.items ≡ text.old.items ++ order_text word) }
{
    match word {
        0 => push_word(text, "none"),
        1 => push_word(text, "left"),
        2 => push_word(text, "right"),
        3 => push_word(text, "both"),
        _ => push_decimal(text, word),
    }
}

/// Appends the entry that a word stands for.
fn push_entry_word(text: &mut Vec<u8>, word: u64) -> Result<(), NoMemory>
    ensures { OnOk result (text.new.items ≡ text.old.items ++ entry_word_text word) }
{
    match Entry::unpack(word) {
        Some(entry) => push_entry(text, entry),
        None => push_decimal(text, word),
    }
}

/// Appends who carries a place by a word.
fn push_holder_word(text: &mut Vec<u8>, word: u64) -> Result<(), NoMemory>
    ensures { OnOk result (text.new.items ≡ text.old.items ++ holder_word_text word) }
{
    match Holder::unpack(word) {
        Some(holder) => push_holder(text, holder),
        None => push_decimal(text, word),
    }
}

/// Appends a message: nothing, an entry, or who carries a place.
fn push_message(text: &mut Vec<u8>, word: u64) -> Result<(), NoMemory>
    ensures { OnOk result (text.new.items ≡ text.old.items ++ message_text word) }
{
    if word == 0 {
        return push_word(text, "-");
    }
    if word < 0x4000_0000_0000_0000 {
        return push_holder_word(text, word);
    }
    push_entry_word(text, word)
}

/// Appends a word, as its kind is written. A word that stands for nothing of its kind is written in
/// decimal.
pub fn push_value(
    alloc: Global,
    text: &mut Vec<u8>,
    kind: WordKind,
    word: u64,
) -> Result<(), NoMemory>
    ensures { OnOk result (text.new.items ≡ text.old.items ++ value_text kind word) }
{
    match kind {
        WordKind::Number => push_decimal(text, word),
        WordKind::Signed => push_signed(alloc, text, word),
        WordKind::Order => push_order(text, word),
        WordKind::Restart => match Restart::unpack(word) {
            Some(restart) => push_restart(text, restart),
            None => push_decimal(text, word),
        },
        WordKind::Entry => push_entry_word(text, word),
        WordKind::Holder => push_holder_word(text, word),
        WordKind::Message => push_message(text, word),
        WordKind::Link => match Link::unpack(word) {
            Some(link) => push_lead(text, link.kind),
            None => push_decimal(text, word),
        },
        WordKind::Finish => match Finish::unpack(word) {
            Some(finish) => push_finish(text, finish),
            None => push_decimal(text, word),
        },
    }
}
