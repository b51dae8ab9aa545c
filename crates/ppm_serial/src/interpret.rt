//! The outcome of a program within a number of turns.
ghost use Rattle.std.specs.Prelude.{◌≡◌, ◌++◌, ◌+◌, ◌<◌, ◌^◌, length, map, IfOk, OnOk};
ghost use Rattle.ppm_tree.specs.Tree.{tree_of};
ghost use Rattle.ppm_tree.specs.Program.{Serial, initial_array, initial_arrays, input_of};
ghost use Rattle.ppm_tree.specs.Program.{values_of, whole_from};
ghost use Rattle.ppm_serial.specs.Entry.{IsBegun, IsMainFrame, lent_to, named_by};
ghost use Rattle.ppm_serial.specs.Laying.{IsLaid};

use crate::code::{Code, Place, Stop};
use crate::frame::Frame;
use crate::lay::lay;
use crate::names::{Names, same};
use crate::region::Region;
use crate::run::Run;
use crate::stack::Stack;
use crate::store::Store;
use ppm_tree::{Array, ArrayInput, Parameter, Program, Tree};
use ppm_words::{Items, Name, NamedArray, NoMemory, Outcome};
use std::alloc::Global;

/// The outcome of a program within a number of turns: the arrays in the end or the first trap, or
/// `NotWithin` exactly where more turns would be spent. The memory that a run takes is that of its
/// arrays and of the procedures and blocks that are open at a time, however many turns it spends.
pub fn serial(alloc: Global, program: &Program, turns: u64) -> Result<Outcome, NoMemory>
    ensures { IfOk result (λ outcome. Serial (tree_of program.now) turns outcome) }
{
    outcome(alloc, program.tree(), turns)
}

/// The outcome of a tree, whatever its size.
pub(crate) fn outcome(alloc: Global, tree: &Tree, turns: u64) -> Result<Outcome, NoMemory>
    ensures { IfOk result (λ outcome. Serial (tree_of tree.now) turns outcome) }
{
    let code = lay(alloc, tree)?;
    outcome_of(alloc, &code, tree, turns)
}

/// The outcome of a tree that is laid out.
#[inline(always)]
fn outcome_of(alloc: Global, code: &Code, tree: &Tree, turns: u64) -> Result<Outcome, NoMemory>
    ensures { IfOk result (λ outcome. IsLaid (tree_of tree.now).procedures code.now
        → Serial (tree_of tree.now) turns outcome) }
{
    let mut run = begin(alloc, code, tree, turns)?;
    match run.to_end(alloc, code) {
        Ok(()) => {
            let arrays = named(alloc, tree, run.store)?;
            Ok(Outcome::Ended(arrays))
        }
        Err(Stop::Trapped(trap, line)) => Ok(Outcome::Trapped(trap, line)),
        Err(Stop::NotWithin) => Ok(Outcome::NotWithin),
        Err(Stop::NoMemory) => Err(NoMemory),
    }
}

/// The values that an array has in front.
fn input<'a>(inputs: &'a [ArrayInput], name: &Name) -> &'a [i64]
    ensures { result.now ≡ input_of inputs.now name.now }
{
    let mut left = inputs;
    while let [first, rest @ ..] = left {
        if same(&first.name.name, name) {
            return first.values.as_slice();
        }
        left = rest;
    }
    &[]
}

/// An array as it starts: the input's values in front, then 0 in each word.
fn values(alloc: Global, inputs: &[ArrayInput], array: &Array) -> Result<Vec<i64>, NoMemory>
    ensures { IfOk result (λ v. v.items ≡ (initial_array inputs.now array.now).values) }
{
    let mut values = Vec::from_slice(alloc, input(inputs, &array.name.name))?;
    while values.len() < array.words as usize {
        values.push(0)?;
    }
    Ok(values)
}

/// Adds arrays as they start.
fn fill(
    alloc: Global,
    inputs: &[ArrayInput],
    arrays: &[Array],
    all: &mut Vec<Vec<i64>>,
) -> Result<(), NoMemory>
    ensures { OnOk result (map (λ v. v.items) all.new.items
        ≡ map (λ v. v.items) all.old.items ++ values_of (map (initial_array inputs.now) arrays.now)) }
{
    match arrays {
        [] => Ok(()),
        [first, rest @ ..] => {
            let words = values(alloc, inputs, first)?;
            all.push(words)?;
            fill(alloc, inputs, rest, all)
        }
    }
}

/// The arrays that a program starts with.
fn store(alloc: Global, tree: &Tree) -> Result<Store, NoMemory>
    ensures { IfOk result (λ s. s ≡ values_of (initial_arrays (tree_of tree.now))) }
{
    let mut arrays = Vec::new(alloc);
    fill(
        alloc,
        tree.inputs.as_slice(),
        tree.arrays.as_slice(),
        &mut arrays,
    )?;
    Ok(Store::from_vec(arrays))
}

/// The whole of the array with a name, at the place or after it.
fn whole(at: usize, arrays: &[Array], name: &Name) -> Region
    requires { at + length arrays.now < 2 ^ 64 }
    ensures { result ≡ whole_from at arrays.now name.now }
{
    match arrays {
        [] => Region::nowhere(),
        [first, rest @ ..] => {
            if same(&first.name.name, name) {
                Region::whole(at, first.words)
            } else {
                whole(at + 1, rest, name)
            }
        }
    }
}

/// Lends to `main`: each parameter is the whole of the array with its name.
fn lend(frame: &mut Frame, names: &Names, arrays: &[Array], parameters: &[Parameter])
    ensures { frame.new ≡ lent_to names.now arrays.now parameters.now frame.old }
{
    match parameters {
        [] => {}
        [first, rest @ ..] => {
            lend(frame, names, arrays, rest);
            let name = &first.name.name;
            frame.set_region(names.regions().slot(name), whole(0, arrays, name));
        }
    }
}

/// The frame of `main`, which is at a place.
fn main_frame(alloc: Global, code: &Code, tree: &Tree, place: usize) -> Result<Frame, NoMemory>
    ensures { IfOk result (λ f. IsMainFrame code.now (tree_of tree.now) tree.now.procedures place f) }
{
    let (locals, regions) = code.sizes(place);
    let mut frame = Frame::fresh(alloc, locals, regions)?;
    match tree.procedures.as_slice().get(place) {
        None => Ok(frame),
        Some(main) => {
            let names = Names::of(alloc, main)?;
            lend(
                &mut frame,
                &names,
                tree.arrays.as_slice(),
                main.parameters.as_slice(),
            );
            Ok(frame)
        }
    }
}

/// A run before the entry of `main`.
fn begin(alloc: Global, code: &Code, tree: &Tree, turns: u64) -> Result<Run, NoMemory>
    ensures { IfOk result (λ run. IsLaid (tree_of tree.now).procedures code.now
        → IsBegun (tree_of tree.now) turns run) }
{
    let frame = main_frame(alloc, code, tree, code.main())?;
    let store = store(alloc, tree)?;
    Ok(Run {
        frame,
        store,
        stack: Stack::new(alloc),
        place: Place { block: 0, at: 0 },
        left: turns,
        ended: false,
    })
}

/// The arrays with their names, in the order of the program.
fn named(alloc: Global, tree: &Tree, store: Store) -> Result<Items<NamedArray>, NoMemory>
    ensures { IfOk result (λ a. a ≡ named_by tree.now.arrays store) }
{
    let mut all = Vec::new(alloc);
    let values = store.into_vec();
    name_all(alloc, tree.arrays.as_slice(), &values, &mut all)?;
    Ok(Items::from_vec(all))
}

/// Adds arrays with their names and values.
fn name_all(
    alloc: Global,
    arrays: &[Array],
    values: &[Vec<i64>],
    all: &mut Vec<NamedArray>,
) -> Result<(), NoMemory>
    ensures { OnOk result (all.new.items
        ≡ all.old.items ++ named_by arrays.now (map (λ v. v.items) values.now)) }
{
    match arrays {
        [] => Ok(()),
        [array, arrays @ ..] => match values {
            [] => Ok(()),
            [first, rest @ ..] => {
                let name = array.name.name.try_clone(alloc)?;
                let words = Vec::from_slice(alloc, first)?;
                let values = Items::from_vec(words);
                all.push(NamedArray { name, values })?;
                name_all(alloc, arrays, rest, all)
            }
        },
    }
}
