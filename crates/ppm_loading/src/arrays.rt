//! The arrays that the words of a machine stand for.
ghost use Rattle.std.specs.Prelude.{◌≡◌, ◌≤◌, IfOk, length, map};
ghost use Rattle.ppm_words.specs.Inputs.{IsInput, value_count};
ghost use Rattle.ppm_words.specs.Limits.{word_limit};
ghost use Rattle.ppm_words.specs.TwosComplement.{value_of};
ghost use Rattle.ppm_core.specs.Machine.{seen};
ghost use Rattle.ppm_loading.specs.Says.{arrays_from};

use ppm_core::Machine;
use ppm_table::Closed;
use ppm_words::{Items, NamedArray, NoMemory, of_word};
use std::alloc::Global;

/// How many values arrays have in all.
pub(crate) fn count_of(arrays: &[NamedArray]) -> u32
    requires input { IsInput arrays.now }
    ensures value { result ≡ value_count arrays.now }
    ensures few { result ≤ word_limit }
{
    let mut count = 0;
    let mut left = arrays;
    while let [array, rest @ ..] = left {
        count += array.values.as_slice().len() as u32;
        left = rest;
    }
    count
}

/// The values of words.
pub fn to_values(alloc: Global, words: &[u64]) -> Result<Vec<i64>, NoMemory>
    ensures { IfOk result (λ values. values.items ≡ map value_of words.now) }
{
    let mut values = Vec::with_capacity(alloc, words.len())?;
    for word in words {
        values.push(of_word(*word))?;
    }
    Ok(values)
}

/// These arrays, by their names, with the values that a machine has for them.
pub fn arrays_of(
    alloc: Global,
    machine: &Machine,
    arrays: &[NamedArray],
) -> Result<Items<NamedArray>, NoMemory>
    requires lengths { (seen machine.now).array_lengths ≡ map (λ a. length a.values) arrays.now }
    ensures { IfOk result (λ named. named
        ≡ arrays_from (seen machine.now).shape (seen machine.now).array_lengths (seen machine.now).state.words 0 arrays.now) }
{
    let mut named = Vec::new(alloc);
    let mut number = 0;
    let mut left = arrays;
    while let [array, rest @ ..] = left {
        let name = array.name.try_clone(alloc)?;
        let values = to_values(alloc, machine.array(number))?;
        named.push(NamedArray {
            name,
            values: Items::from_vec(values),
        })?;
        number += 1;
        left = rest;
    }
    Ok(Items::from_vec(named))
}

/// The named arrays with the values that the words of a closed table have for them.
pub fn arrays_of_closed(
    alloc: Global,
    closed: &Closed,
    arrays: &[NamedArray],
) -> Result<Items<NamedArray>, NoMemory>
    requires lengths { closed.now.array_lengths ≡ map (λ a. length a.values) arrays.now }
    ensures { IfOk result (λ named. named ≡ arrays_from closed.now.shape closed.now.array_lengths closed.now.words 0 arrays.now) }
{
    let mut named = Vec::new(alloc);
    let mut number = 0;
    let mut left = arrays;
    while let [array, rest @ ..] = left {
        let name = array.name.try_clone(alloc)?;
        let words = closed.array(alloc, number)?;
        let values = to_values(alloc, words.as_slice())?;
        named.push(NamedArray {
            name,
            values: Items::from_vec(values),
        })?;
        number += 1;
        left = rest;
    }
    Ok(Items::from_vec(named))
}
