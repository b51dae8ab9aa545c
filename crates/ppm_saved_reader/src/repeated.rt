//! Reads the words: how many there are to be, and their runs.
ghost use Rattle.std.specs.Prelude.{◌≡◌, ◌+◌, ◌<◌, ◌^◌, ◌++◌, ℕ, List, [], false, length, replicate};
ghost use Rattle.std.specs.Prelude.{OnOk, IfOk, IfErr};
ghost use Rattle.ppm_code.specs.declared.code.CodeParts.{CodeParts};
ghost use Rattle.ppm_saved.specs.declared.names.NamedLength.{NamedLength};
ghost use Rattle.ppm_saved_reader.specs.declared.saved_error.SavedError.TheVariants.{NoMemory};
ghost use Rattle.ppm_saved_reader.specs.Rules.{words_for as count_for, is_other_count as other_count};
ghost use Rattle.ppm_saved_reader.specs.Rules.{is_last as last_is};
ghost use Rattle.ppm_saved_reader.specs.Places.{AtWords, AtRuns};
ghost use Rattle.ppm_saved_reader.specs.Correct.{IsRead, AreRunsRead, IsRefusal};

use crate::first_run::first_run;
use crate::lines::{Sizes, count_in};
use crate::rules::is_other_count;
use crate::saved_error::SavedError;
use ppm_pieces::split_once;
use std::alloc::Global;

/// The text after the count of words.
pub(crate) fn read_count(text: &[u8], count: u64, line: u32) -> Result<&[u8], SavedError>
    ensures ok { (whole : List ℕ) (z : Sizes) (arrays : List NamedLength) (code : CodeParts)
        → count ≡ count_for z arrays → IsRead whole (AtWords z arrays code) line text.now
        → IfOk result (λ rest. IsRead whole (AtRuns z arrays code []) (line + 1) rest.now) }
    ensures count { IfOk result (λ rest. other_count count rest.now ≡ false) }
    ensures shorter { IfOk result (λ rest. length rest.now < length text.now) }
    ensures err { (whole : List ℕ) (z : Sizes) (arrays : List NamedLength) (code : CodeParts)
        → count ≡ count_for z arrays → IsRead whole (AtWords z arrays code) line text.now
        → IfErr result (IsRefusal whole) }
{
    let Some((bytes, rest)) = split_once(text, b'\n') else {
        return Err(SavedError::NoSuchForm(line));
    };
    let Some(said) = count_in(b"words", bytes) else {
        return Err(SavedError::NoSuchForm(line));
    };
    if said != count {
        return Err(SavedError::WrongCount(line));
    }
    if is_other_count(count, rest) {
        return Err(SavedError::WrongCount(line));
    }
    Ok(rest)
}

/// Appends a word so many times.
fn push_run(words: &mut Vec<u64>, word: u64, times: u64) -> Result<(), SavedError>
    requires { times < 2 ^ 32 }
    ensures ok { OnOk result (words.new.items ≡ words.old.items ++ replicate times word) }
    ensures err { IfErr result (λ e. e ≡ NoMemory) }
{
    if times == 1 {
        words.push(word)?;
        return Ok(());
    }
    let length = words.len() + times as usize;
    words.resize(length, word)?;
    Ok(())
}

/// Whether the last word, if there is one, is this one.
fn is_last(last: Option<u64>, word: u64) -> bool
    ensures { result ≡ last_is last word }
{
    match last {
        Some(other) => other == word,
        None => false,
    }
}

/// Reads the runs of so many words, the first of which stands at a line.
pub(crate) fn read_runs(
    alloc: Global,
    text: &[u8],
    count: u64,
    line: u32,
) -> Result<Vec<u64>, SavedError>
    requires few { count < 2 ^ 32 }
    requires count { other_count count text.now ≡ false }
    requires bound { line + length text.now < 2 ^ 32 }
    ensures ok { IfOk result (λ words. AreRunsRead text.now line count words.items) }
    ensures err { (whole : List ℕ) (z : Sizes) (arrays : List NamedLength) (code : CodeParts)
        → IsRead whole (AtRuns z arrays code []) line text.now → IfErr result (IsRefusal whole) }
{
    let mut words = Vec::with_capacity(alloc, count as usize)?;
    let mut last: Option<u64> = None;
    let mut number = line;
    let mut left = text;
    while let Some(((read, times), rest)) = first_run(left) {
        let Some(word) = read else {
            return Err(SavedError::OutOfRange(number));
        };
        if is_last(last, word) {
            return Err(SavedError::NoSuchForm(number));
        }
        push_run(&mut words, word, times)?;
        last = Some(word);
        number += 1;
        left = rest;
    }
    if left.is_empty() {
        Ok(words)
    } else {
        Err(SavedError::NoSuchForm(number))
    }
}
