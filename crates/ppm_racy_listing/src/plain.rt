//! Texts with puts in place of exchanges.
ghost use Rattle.std.specs.Prelude.{◌≡◌, ◌++◌, ◌∷◌, IfOk, OnOk, MatchOption, Some, None};
ghost use Rattle.ppm_racy_listing.specs.Plain.{register_in as number_in, plain_line, old_in};
ghost use Rattle.ppm_racy_listing.specs.Plain.{plain_of_text, olds_of, cam_line as cam_in_line};

use ppm_pieces::{is_numeral, same_bytes, split_once, value};
use ppm_words::NoMemory;
use std::alloc::Global;

/// A text with a line `put a b n L` in place of each line `cam a b o n L`; and of each line the
/// register `o`, by its number, if it was of an exchange.
#[derive(Debug, Drop)]
pub struct Plain {
    pub text: Vec<u8>,
    pub olds: Vec<Option<u64>>,
}

/// The words of a line of an exchange.
#[derive(Clone, Copy, Debug)]
struct CamLine<'a> {
    region: &'a [u8],
    index: &'a [u8],
    old: u64,
    new: &'a [u8],
    line: &'a [u8],
}

/// The number of a register's word.
fn register_in(word: &[u8]) -> Option<u64>
    ensures { result ≡ number_in word.now }
{
    match word {
        [first, rest @ ..] => {
            if *first == b'r' && is_numeral(rest) {
                Some(value(rest))
            } else {
                None
            }
        }
        [] => None,
    }
}

/// The words of a line, if it is `cam` and five words with one space between two, of which the
/// third one is a register.
fn cam_line(line: &[u8]) -> Option<CamLine<'_>>
    ensures { MatchOption result
        (cam_in_line line.now ≡ None)
        (λ cam. cam_in_line line.now ≡ Some (record {
          region = cam.region.now;
          index = cam.index.now;
          old = cam.old;
          new = cam.new.now;
          line = cam.line.now;
        })) }
{
    let (keyword, rest) = split_once(line, b' ')?;
    let (region, rest) = split_once(rest, b' ')?;
    let (index, rest) = split_once(rest, b' ')?;
    let (old, rest) = split_once(rest, b' ')?;
    let (new, line) = split_once(rest, b' ')?;
    if !same_bytes(keyword, b"cam") {
        return None;
    }
    match split_once(line, b' ') {
        Some(_) => None,
        None => match register_in(old) {
            Some(old) => Some(CamLine {
                region,
                index,
                old,
                new,
                line,
            }),
            None => None,
        },
    }
}

/// Appends a space and a word.
fn push_word(text: &mut Vec<u8>, word: &[u8]) -> Result<(), NoMemory>
    ensures { OnOk result (text.new.items ≡ text.old.items ++ 32 ∷ word.now) }
{
    text.push(b' ')?;
    text.extend_from_slice(word)?;
    Ok(())
}

/// Appends a line without its line feed, with a put in place of an exchange; the exchange's old
/// register.
fn push_plain(text: &mut Vec<u8>, line: &[u8]) -> Result<Option<u64>, NoMemory>
    ensures text { OnOk result (text.new.items ≡ text.old.items ++ plain_line line.now) }
    ensures old { IfOk result (λ old. old ≡ old_in line.now) }
{
    match cam_line(line) {
        Some(cam) => {
            text.extend_from_slice(b"put")?;
            push_word(text, cam.region)?;
            push_word(text, cam.index)?;
            push_word(text, cam.new)?;
            push_word(text, cam.line)?;
            Ok(Some(cam.old))
        }
        None => {
            text.extend_from_slice(line)?;
            Ok(None)
        }
    }
}

/// A text with puts in place of its exchanges.
pub fn plain_text(alloc: Global, text: &[u8]) -> Result<Plain, NoMemory>
    ensures text { IfOk result (λ plain. plain.text.items ≡ plain_of_text text.now) }
    ensures olds { IfOk result (λ plain. plain.olds.items ≡ olds_of text.now) }
{
    let mut plain = Vec::new(alloc);
    let mut olds = Vec::new(alloc);
    let mut left = text;
    while let Some((line, rest)) = split_once(left, b'\n') {
        olds.push(push_plain(&mut plain, line)?)?;
        plain.push(b'\n')?;
        left = rest;
    }
    olds.push(push_plain(&mut plain, left)?)?;
    Ok(Plain { text: plain, olds })
}
