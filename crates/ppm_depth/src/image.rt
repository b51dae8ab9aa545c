//! The words with which a run begins, and the arrays with which it ends.
ghost use Rattle.std.specs.Prelude.{◌≡◌, ◌++◌, ◌<◌, ◌≤◌, IfOk, OnOk, get_or, length, map};
ghost use Rattle.std.specs.List.{All};
ghost use Rattle.ppm_words.specs.Limits.{word_limit};
ghost use Rattle.ppm_code.specs.Code.{IsCode};
ghost use Rattle.ppm_code.specs.Inputs.{words_in};
ghost use Rattle.ppm_depth.specs.Start.{NamesArrays, regions_from};
ghost use Rattle.ppm_depth.specs.Image.{arrays_in, root_frame, word_count};

use crate::store::Store;
use ppm_code::{Code, frame_size, push_arrays, to_values};
use ppm_words::{Items, NamedArray, NoMemory};
use std::alloc::Global;

/// The words of arrays, one array after the other.
pub fn to_words(alloc: Global, arrays: &[NamedArray]) -> Result<Vec<u64>, NoMemory>
    ensures { IfOk result (λ words. words.items ≡ words_in arrays.now) }
{
    let mut words = Vec::new(alloc);
    push_arrays(&mut words, arrays)?;
    Ok(words)
}

/// The region words of arrays that lie one after the other.
fn regions(alloc: Global, arrays: &[NamedArray]) -> Result<Vec<u64>, NoMemory>
    requires { word_count arrays.now ≤ word_limit }
    ensures { IfOk result (λ regions. regions.items ≡ regions_from 0 arrays.now) }
{
    let mut regions = Vec::new(alloc);
    let mut start = 0;
    for array in arrays {
        let length = array.values.as_slice().len() as u64;
        regions.push(start * (1 << 32) + length)?;
        start += length;
    }
    Ok(regions)
}

/// Appends the region words of arrays by their numbers.
fn push_regions(blocks: &mut Vec<u64>, regions: &[u64], arrays: &[u32]) -> Result<(), NoMemory>
    requires { All (λ a. a < length regions.now) arrays.now }
    ensures { OnOk result (blocks.new.items
        ≡ blocks.old.items ++ map (λ a. get_or regions.now a 0) arrays.now) }
{
    for array in arrays {
        blocks.push(regions[*array as usize])?;
    }
    Ok(())
}

/// The words with which a run begins: the root's frame, and the words of the arrays.
pub fn root_store(alloc: Global, code: &Code, arrays: &[NamedArray]) -> Result<Store, NoMemory>
    requires named { NamesArrays code.now arrays.now }
    requires few { word_count arrays.now ≤ word_limit }
    ensures blocks { IfOk result (λ store. store.blocks.items ≡ root_frame code.now arrays.now) }
    ensures words { IfOk result (λ store. store.words.items ≡ words_in arrays.now) }
    ensures code { IsCode code.now }
{
    let parts = code.parts();
    let words = to_words(alloc, arrays)?;
    let regions = regions(alloc, arrays)?;
    let mut store = Store {
        blocks: Vec::new(alloc),
        words,
    };
    store.open_block(6)?;
    push_regions(&mut store.blocks, &regions, parts.arrays.as_slice())?;
    let frame_words = frame_size(code, parts.root) as usize;
    store.open_block(frame_words - (6 + parts.arrays.as_slice().len()))?;
    Ok(store)
}

/// The arrays, by their names, that words stand for.
pub fn to_arrays(
    alloc: Global,
    arrays: &[NamedArray],
    words: &[u64],
) -> Result<Items<NamedArray>, NoMemory>
    requires enough { word_count arrays.now ≤ length words.now }
    ensures { IfOk result (λ named. named ≡ arrays_in arrays.now words.now) }
{
    let mut named = Vec::new(alloc);
    let mut rest = words;
    for array in arrays {
        let (front, back) = rest.split_at(array.values.as_slice().len());
        let name = array.name.try_clone(alloc)?;
        let values = to_values(alloc, front)?;
        named.push(NamedArray {
            name,
            values: Items::from_vec(values),
        })?;
        rest = back;
    }
    Ok(Items::from_vec(named))
}
