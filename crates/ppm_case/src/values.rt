//! Puts the values of an array into memory.
ghost use Rattle.std.specs.Prelude.{◌≡◌, ◌++◌, ◌≤◌, ◌∷◌, IfOk, OnOk, Some, ℕ, List, true};
ghost use Rattle.std.specs.Prelude.{◌-◌, pos, length, take, replicate};
ghost use Rattle.ppm_words.specs.Limits.{word_limit};
ghost use Rattle.ppm_pieces.specs.Pieces.{split};
ghost use Rattle.ppm_case.specs.Spelling.{run_in as run, run_values, values_in, filled};
ghost use Rattle.ppm_case.specs.Rules.{times_of, values_fit};
ghost use Rattle.ppm_case.specs.Judged.{HasRoom};

use crate::run::{Run, run_in};
use ppm_pieces::split_once;
use ppm_words::NoMemory;
use std::alloc::Global;

/// Appends the values of a run.
fn push_run(values: &mut Vec<i64>, run: Run) -> Result<(), NoMemory>
    requires { run.times ≤ word_limit }
    ensures { OnOk result (values.new.items ≡ values.old.items ++ run_values (Some run)) }
{
    match run.number {
        Some(number) => {
            if run.times == 1 {
                values.push(number)?;
                return Ok(());
            }
            let length = values.len() + run.times as usize;
            values.resize(length, number)?;
            Ok(())
        }
        None => Ok(()),
    }
}

/// Appends the values of a word.
fn push_word(values: &mut Vec<i64>, word: &[u8]) -> Result<(), NoMemory>
    requires { times_of (run word.now) ≤ word_limit }
    ensures { OnOk result (values.new.items ≡ values.old.items ++ run_values (run word.now)) }
{
    match run_in(word) {
        Some(run) => push_run(values, run),
        None => Ok(()),
    }
}

/// Appends the values of words.
fn push_values(values: &mut Vec<i64>, words: &[u8]) -> Result<(), NoMemory>
    requires { HasRoom (split 32 words.now) }
    ensures { OnOk result (values.new.items
        ≡ values.old.items ++ values_in (split 32 words.now)) }
{
    let mut left = words;
    while let Some((word, rest)) = split_once(left, b' ') {
        push_word(values, word)?;
        left = rest;
    }
    push_word(values, left)?;
    Ok(())
}

/// Appends the values of the words after the first.
fn push_given(values: &mut Vec<i64>, words: &[u8]) -> Result<(), NoMemory>
    requires { (l : List ℕ) (ws : List (List ℕ)) → split 32 words.now ≡ l ∷ ws → HasRoom ws }
    ensures { (l : List ℕ) (ws : List (List ℕ)) → split 32 words.now ≡ l ∷ ws
        → OnOk result (values.new.items ≡ values.old.items ++ values_in ws) }
{
    match split_once(words, b' ') {
        Some((_, rest)) => push_values(values, rest),
        None => Ok(()),
    }
}

/// Cuts values to a length, or appends zeros up to it.
fn fill_up(values: &mut Vec<i64>, len: usize) -> Result<(), NoMemory>
    ensures { OnOk result (values.new.items
        ≡ take len values.old.items ++ replicate (len - length values.old.items) (pos 0)) }
{
    values.resize(len, 0)?;
    Ok(())
}

/// The values of an array of so many words, by the words after its name.
pub(crate) fn values_of(alloc: Global, words: &[u8], len: u64) -> Result<Vec<i64>, NoMemory>
    requires few { len ≤ word_limit }
    requires fit { (l : List ℕ) (ws : List (List ℕ)) → split 32 words.now ≡ l ∷ ws
        → values_fit len ws ≡ true }
    ensures { (l : List ℕ) (ws : List (List ℕ)) → split 32 words.now ≡ l ∷ ws
        → IfOk result (λ values. values.items ≡ filled len (values_in ws)) }
{
    let mut values = Vec::with_capacity(alloc, len as usize)?;
    push_given(&mut values, words)?;
    fill_up(&mut values, len as usize)?;
    Ok(values)
}
