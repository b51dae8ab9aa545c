//! The arrays that a program starts with.
ghost use Rattle.std.specs.Prelude.{◌≡◌, ◌≤◌, IfOk, List, ℕ, ℤ, pos, length, map};
ghost use Rattle.ppm_tree.specs.Tree.{tree_of};
ghost use Rattle.ppm_tree.specs.Program.{initial_arrays, initial_array, input_of};
ghost use Rattle.ppm_regions.specs.Admission.{IsAdmitted};

use ppm_tree::{Array, ArrayInput, Program};
use ppm_words::{Input, Items, Name, NamedArray, NoMemory};
use std::alloc::Global;

/// The values that an array has in front, by the first input for it.
fn input_of<'t>(inputs: &'t [ArrayInput], name: &Name) -> &'t [i64]
    ensures { result.now ≡ input_of inputs.now name.now }
{
    for input in inputs {
        if input.name.name.is(name) {
            return input.values.as_slice();
        }
    }
    &[]
}

/// An array as it starts: the input's values in front, then 0 in each word.
fn initial_array(
    alloc: Global,
    inputs: &[ArrayInput],
    array: &Array,
) -> Result<NamedArray, NoMemory>
    ensures { IfOk result (λ a. a ≡ initial_array inputs.now array.now) }
{
    let name = array.name.name.try_clone(alloc)?;
    let front = input_of(inputs, &array.name.name);
    let mut values = Vec::from_slice(alloc, front)?;
    let words = array.words as usize;
    if front.len() < words {
        values.resize(words, 0)?;
    }
    Ok(NamedArray {
        name,
        values: Items::from_vec(values),
    })
}

/// The arrays as they start.
fn all_initial(
    alloc: Global,
    inputs: &[ArrayInput],
    arrays: &[Array],
) -> Result<Vec<NamedArray>, NoMemory>
    ensures { IfOk result (λ all. all.items ≡ map (initial_array inputs.now) arrays.now) }
{
    let mut all = Vec::new(alloc);
    for array in arrays {
        all.push(initial_array(alloc, inputs, array)?)?;
    }
    Ok(all)
}

/// The arrays that an admitted program starts with.
pub fn initial_input(alloc: Global, program: &Program) -> Result<Input, NoMemory>
    requires { IsAdmitted (tree_of program.now) }
    ensures { IfOk result (λ input. input ≡ initial_arrays (tree_of program.now)) }
{
    let tree = program.tree();
    let arrays = all_initial(alloc, tree.inputs.as_slice(), tree.arrays.as_slice())?;
    Ok(Input::from_vec(arrays))
}
