//! Reads the values of a RAM's memory.
ghost use Rattle.std.specs.Prelude.{◌≡◌, ◌∷◌, ◌<◌, IfOk, IfErr, Ok, length, suc};
ghost use Rattle.ppm_pieces.specs.Pieces.{split};
ghost use Rattle.ppm_ram.specs.Numbers.{values_in};
ghost use Rattle.ppm_ram.specs.Lines.{fitting, values_of as values_said};
ghost use Rattle.ppm_ram.specs.Said.{at_line, bytes_left, IsFaultOf, words_left};

use crate::number::value_in;
use crate::ram_error::{RamError, RamFault};
use ppm_pieces::{same_bytes, split_once};
use std::alloc::Global;

/// The first of some words, and those after it, if there are more.
#[derive(Clone, Copy)]
struct Words<'a> {
    word: &'a [u8],
    rest: &'a [u8],
    more: bool,
}

/// Words cut after the first.
fn cut(words: &[u8]) -> Words
    ensures pieces { split 32 words.now
        ≡ result.word.now ∷ words_left result.more result.rest.now }
    ensures shorter { bytes_left result.more result.rest.now < suc (length words.now) }
{
    match split_once(words, b' ') {
        Some((word, rest)) => Words {
            word,
            rest,
            more: true,
        },
        None => Words {
            word: words,
            rest: words,
            more: false,
        },
    }
}

/// The values of words for a memory of so many.
fn read_values(alloc: Global, memory: u32, words: &[u8]) -> Result<Vec<i64>, RamError>
    ensures ok { IfOk result (λ zs. fitting memory (values_in (split 32 words.now))
        ≡ Ok zs.items) }
    ensures err { IfErr result
        (IsFaultOf (at_line 3 (fitting memory (values_in (split 32 words.now))))) }
{
    let mut values = Vec::new(alloc);
    let mut fit = true;
    let mut left = words;
    let mut more = true;
    while more {
        let first = cut(left);
        left = first.rest;
        more = first.more;
        match value_in(first.word) {
            None => return Err(RamError::Refused(RamFault::NoSuchForm, 3)),
            Some(said) => match said {
                None => fit = false,
                Some(value) => values.push(value)?,
            },
        }
    }
    if !fit {
        return Err(RamError::Refused(RamFault::OutOfRange, 3));
    }
    if values.len() > memory as usize {
        return Err(RamError::Refused(RamFault::TooManyValues, 3));
    }
    Ok(values)
}

/// The values of a line for a memory of so many words.
pub(crate) fn values_of(alloc: Global, memory: u32, line: &[u8]) -> Result<Vec<i64>, RamError>
    ensures ok { IfOk result (λ zs. values_said memory line.now ≡ Ok zs.items) }
    ensures err { IfErr result (IsFaultOf (at_line 3 (values_said memory line.now))) }
{
    match split_once(line, b' ') {
        None => {
            if same_bytes(line, b"values") {
                Ok(Vec::new(alloc))
            } else {
                Err(RamError::Refused(RamFault::NoSuchForm, 3))
            }
        }
        Some((word, words)) => {
            if same_bytes(word, b"values") {
                read_values(alloc, memory, words)
            } else {
                Err(RamError::Refused(RamFault::NoSuchForm, 3))
            }
        }
    }
}
