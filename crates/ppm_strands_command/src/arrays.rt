//! The arrays that the words of a run stand for.
ghost use Rattle.std.specs.Prelude.{◌≡◌, ◌≤◌, IfOk, length};
ghost use Rattle.ppm_depth.specs.Image.{arrays_in, word_count};

use ppm_code::to_values;
use ppm_words::{Items, NamedArray, NoMemory};
use std::alloc::Global;

/// The arrays, by their names, that words stand for.
pub(crate) fn to_arrays(
    alloc: Global,
    arrays: &[NamedArray],
    words: &[u64],
) -> Result<Items<NamedArray>, NoMemory>
    requires enough { word_count arrays.now ≤ length words.now }
    ensures { IfOk result (λ named. named ≡ arrays_in arrays.now words.now) }
{
    let mut named = Vec::new(alloc);
    let mut rest = words;
    for array in arrays {
        let (front, back) = rest.split_at(array.values.as_slice().len());
        let name = array.name.try_clone(alloc)?;
        let values = to_values(alloc, front)?;
        named.push(NamedArray {
            name,
            values: Items::from_vec(values),
        })?;
        rest = back;
    }
    Ok(Items::from_vec(named))
}
