//! The words of an input's arrays, and the values that words stand for.
ghost use Rattle.std.specs.Prelude.{◌≡◌, ◌++◌, IfOk, OnOk, map};
ghost use Rattle.ppm_words.specs.TwosComplement.{word_of, value_of};
ghost use Rattle.ppm_code.specs.Inputs.{words_in};

use ppm_words::{NamedArray, NoMemory, of_word, to_word};
use std::alloc::Global;

/// Appends the words of an array.
fn push_array(words: &mut Vec<u64>, values: &[i64]) -> Result<(), NoMemory>
    ensures { OnOk result (words.new.items ≡ words.old.items ++ map word_of values.now) }
{
    for value in values {
        words.push(to_word(*value))?;
    }
    Ok(())
}

/// Appends the words of arrays, one array after the other.
pub fn push_arrays(words: &mut Vec<u64>, arrays: &[NamedArray]) -> Result<(), NoMemory>
    ensures { OnOk result (words.new.items ≡ words.old.items ++ words_in arrays.now) }
{
    for array in arrays {
        push_array(words, array.values.as_slice())?;
    }
    Ok(())
}

/// The values of words.
pub fn to_values(alloc: Global, words: &[u64]) -> Result<Vec<i64>, NoMemory>
    ensures { IfOk result (λ values. values.items ≡ map value_of words.now) }
{
    let mut values = Vec::new(alloc);
    for word in words {
        values.push(of_word(*word))?;
    }
    Ok(values)
}
