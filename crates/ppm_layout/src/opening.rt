//! The image with which a run begins.
ghost use Rattle.std.specs.Prelude.{◌≡◌, ◌++◌, ◌<◌, IfOk, OnOk, length, map};
ghost use Rattle.std.specs.List.{All};
ghost use Rattle.ppm_words.specs.Inputs.{value_count, IsInput};
ghost use Rattle.ppm_layout.specs.Sequence.{opening_words};
ghost use Rattle.ppm_layout.specs.Image.{IsImageOf};

use crate::images::Image;
use crate::root::root_of;
use crate::sequence::push_processors;
use crate::start::Start;
use ppm_cells::Shape;
use ppm_code::{Code, push_arrays};
use ppm_words::{Input, Items, NamedArray, NoMemory};
use std::alloc::Global;

/// How many words more the words of an image have room for: a table moves them after a few.
const SPARE: usize = 8;

/// The lengths of arrays.
fn lengths_of(alloc: Global, arrays: &[NamedArray]) -> Result<Vec<u32>, NoMemory>
    requires { IsInput arrays.now }
    ensures { IfOk result (λ lengths. lengths.items ≡ map (λ a. length a.values) arrays.now) }
{
    let mut lengths = Vec::new(alloc);
    for array in arrays {
        lengths.push(array.values.as_slice().len() as u32)?;
    }
    Ok(lengths)
}

/// All words: those in front of the places, the places and the arrays.
fn words_of(
    alloc: Global,
    code: &Code,
    arrays: &[NamedArray],
    shape: Shape,
    keeper: u32,
) -> Result<Vec<u64>, NoMemory>
    requires keeper { keeper < shape.processors }
    requires named { All (λ number. number < length arrays.now) code.now.arrays }
    requires input { IsInput arrays.now }
    ensures { IfOk result (λ words. words.items ≡ opening_words code.now arrays.now shape keeper) }
{
    let root = root_of(alloc, code, arrays)?;
    let start = Start {
        shape,
        keeper,
        root,
    };
    let mut words = Vec::with_capacity(alloc, shape.word_count() as usize + SPARE)?;
    push_processors(&mut words, shape.processors)?;
    start.push_places(&mut words)?;
    push_arrays(&mut words, arrays)?;
    Ok(words)
}

/// The image of a code and its input on a machine of this shape. The place of the keeper, a
/// processor of the shape, is to run the root's frame, and all others look for work. `Err` only
/// where memory is refused.
pub fn image(
    alloc: Global,
    code: &Code,
    input: &Input,
    shape: Shape,
    keeper: u32,
) -> Result<Image, NoMemory>
    requires keeper { keeper < shape.processors }
    requires arrays { shape.arrays ≡ value_count input.now }
    requires named { All (λ number. number < length input.now) code.now.arrays }
    ensures image { IfOk result (IsImageOf code.now input.now shape keeper) }
{
    let arrays = input.arrays();
    let words = words_of(alloc, code, arrays, shape, keeper)?;
    let lengths = lengths_of(alloc, arrays)?;
    Ok(Image {
        shape,
        keeper,
        lengths: Items::from_vec(lengths),
        words: Items::from_vec(words),
    })
}
