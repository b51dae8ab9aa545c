//! What a run begins with.
ghost use Rattle.std.specs.Prelude.{◌≡◌, ◌++◌, ◌<◌, ◌≤◌, IfOk, OnOk, get_or, length, map};
ghost use Rattle.std.specs.List.{All};
ghost use Rattle.ppm_words.specs.Limits.{word_limit};
ghost use Rattle.ppm_code.specs.Inputs.{words_in};
ghost use Rattle.ppm_depth.specs.Start.{NamesArrays, regions_from, root_regions};
ghost use Rattle.ppm_depth.specs.Image.{word_count};
ghost use Rattle.ppm_racy.specs.Code.{plain_code};

use ppm_code::push_arrays;
use ppm_racy::RacyCode;
use ppm_words::{NamedArray, NoMemory};
use std::alloc::Global;

/// The words of arrays, one array after the other.
pub(crate) fn words_of(alloc: Global, arrays: &[NamedArray]) -> Result<Vec<u64>, NoMemory>
    ensures { IfOk result (λ words. words.items ≡ words_in arrays.now) }
{
    let mut words = Vec::new(alloc);
    push_arrays(&mut words, arrays)?;
    Ok(words)
}

/// The region words of arrays that lie one after the other.
fn regions(alloc: Global, arrays: &[NamedArray]) -> Result<Vec<u64>, NoMemory>
    requires { word_count arrays.now ≤ word_limit }
    ensures { IfOk result (λ regions. regions.items ≡ regions_from 0 arrays.now) }
{
    let mut regions = Vec::new(alloc);
    let mut start = 0;
    for array in arrays {
        let length = array.values.as_slice().len() as u64;
        regions.push(start * (1 << 32) + length)?;
        start += length;
    }
    Ok(regions)
}

/// Appends the region words of arrays by their numbers.
fn push_regions(words: &mut Vec<u64>, regions: &[u64], arrays: &[u32]) -> Result<(), NoMemory>
    requires { All (λ a. a < length regions.now) arrays.now }
    ensures { OnOk result (words.new.items
        ≡ words.old.items ++ map (λ a. get_or regions.now a 0) arrays.now) }
{
    for array in arrays {
        words.push(regions[*array as usize])?;
    }
    Ok(())
}

/// The region words that the root of a code takes.
pub(crate) fn root_words(
    alloc: Global,
    code: &RacyCode,
    input: &[NamedArray],
) -> Result<Vec<u64>, NoMemory>
    requires named { NamesArrays (plain_code code.now) input.now }
    requires few { word_count input.now ≤ word_limit }
    ensures { IfOk result (λ words. words.items ≡ root_regions (plain_code code.now) input.now) }
{
    let parts = code.parts();
    let regions = regions(alloc, input)?;
    let mut words = Vec::new(alloc);
    push_regions(&mut words, &regions, parts.arrays.as_slice())?;
    Ok(words)
}
