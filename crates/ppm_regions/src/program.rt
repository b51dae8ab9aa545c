//! Faults of a whole program.
ghost use Rattle.std.specs.Prelude.{◌≡◌, ◌↔◌, IsTrue, [], ◌∷◌, ◌++◌, None, Some, IfOk, MatchOption};
ghost use Rattle.std.specs.Prelude.{map};
ghost use Rattle.std.specs.List.{flat_map};
ghost use Rattle.ppm_tree.specs.Tree.{ProgramTree, procedure_of, give_of, tree_of};
ghost use Rattle.ppm_tree.specs.Parts.{gives_of};
ghost use Rattle.ppm_regions.specs.Scope.{Scope};
ghost use Rattle.ppm_regions.specs.Uses.{Begins, MainTakes, MainGives, Fills, sites_of};
ghost use Rattle.ppm_regions.specs.Uses.{sites_of_procedure, uses_of_main};
ghost use Rattle.ppm_regions.specs.Faults.{array_named};
ghost use Rattle.ppm_regions.specs.Deciding.{HasOne, IsNamedMain, IsLeast, IsLeastOf};

use crate::ask::is_region;
use crate::declaring::repeated;
use crate::found::earlier;
use crate::procedures::Procedures;
use crate::region_error::RegionError;
use crate::walk::in_procedure;
use ppm_tree::{Array, ArrayInput, Give, Named, Parameter, Proc, Tree};
use ppm_words::NoMemory;
use std::alloc::Global;

/// The array with the name, if there is one.
fn array_named<'t>(tree: &'t Tree, name: &Named) -> Option<&'t Array>
    ensures { MatchOption result (array_named (tree_of tree.now) name.now
        ≡ None) (λ a. array_named (tree_of tree.now) name.now ≡ Some a.now) }
{
    for array in tree.arrays.as_slice() {
        if array.name.name.is(&name.name) {
            return Some(array);
        }
    }
    None
}

/// Whether the procedure is `main`.
fn is_main(procedure: &Proc) -> bool
    ensures { IsTrue result ↔ IsNamedMain procedure.now }
{
    procedure.name.name.as_bytes() == b"main".as_slice()
}

/// Whether some procedure is `main`.
fn has_main(procedures: &[Proc]) -> bool
    ensures { IsTrue result ↔ HasOne IsNamedMain procedures.now }
{
    for procedure in procedures {
        if is_main(procedure) {
            return true;
        }
    }
    false
}

/// The fault of a program without a `main`.
fn of_begin(tree: &Tree) -> Option<RegionError>
    ensures { IsLeastOf (tree_of tree.now) [] (Begins ∷ []) result }
{
    if has_main(tree.procedures.as_slice()) {
        return None;
    }
    Some(RegionError::BadMain(0))
}

/// The fault of a parameter of `main`.
fn of_parameter(tree: &Tree, parameter: &Parameter) -> Option<RegionError>
    ensures { IsLeastOf (tree_of tree.now) [] (MainTakes parameter.now ∷ []) result }
{
    if !is_region(parameter.mode) {
        return Some(RegionError::BadMain(parameter.name.line));
    }
    match array_named(tree, &parameter.name) {
        None => Some(RegionError::BadMain(parameter.name.line)),
        Some(_) => None,
    }
}

/// The first fault of the parameters of `main`.
fn of_parameters(tree: &Tree, parameters: &[Parameter]) -> Option<RegionError>
    ensures { IsLeastOf (tree_of tree.now) [] (map MainTakes parameters.now) result }
{
    let mut found = None;
    for parameter in parameters {
        found = earlier(found, of_parameter(tree, parameter));
    }
    found
}

/// The fault of what `main` gives.
fn of_give(tree: &Tree, give: &Option<Give>) -> Option<RegionError>
    ensures { IsLeastOf (tree_of tree.now) [] (map MainGives (gives_of (give_of give.now))) result }
{
    match give {
        None => None,
        Some(give) => Some(RegionError::BadMain(give.line)),
    }
}

/// The first fault of a procedure, if that is `main`.
fn of_main(tree: &Tree, procedure: &Proc) -> Option<RegionError>
    ensures { IsLeastOf (tree_of tree.now) [] (uses_of_main (procedure_of procedure.now)) result }
{
    if !is_main(procedure) {
        return None;
    }
    let given = of_give(tree, &procedure.give);
    earlier(of_parameters(tree, procedure.parameters.as_slice()), given)
}

/// The fault of an input.
fn of_input(tree: &Tree, input: &ArrayInput) -> Option<RegionError>
    ensures { IsLeastOf (tree_of tree.now) [] (Fills input.now ∷ []) result }
{
    let Some(array) = array_named(tree, &input.name) else {
        return Some(RegionError::BadInput(input.name.line));
    };
    if (array.words as usize) < input.values.as_slice().len() {
        return Some(RegionError::BadInput(input.name.line));
    }
    None
}

/// The first fault of the inputs.
fn of_inputs(tree: &Tree) -> Option<RegionError>
    ensures { IsLeastOf (tree_of tree.now) [] (map Fills (tree_of tree.now).inputs) result }
{
    let mut found = None;
    for input in tree.inputs.as_slice() {
        found = earlier(found, of_input(tree, input));
    }
    found
}

/// The first fault of all that is `main`.
fn of_mains(tree: &Tree) -> Option<RegionError>
    ensures { IsLeastOf (tree_of tree.now) [] (flat_map uses_of_main (tree_of tree.now).procedures) result }
{
    let mut found = None;
    for procedure in tree.procedures.as_slice() {
        found = earlier(found, of_main(tree, procedure));
    }
    found
}

/// The first fault in the procedures.
fn in_procedures(alloc: Global, tree: &Tree) -> Result<Option<RegionError>, NoMemory>
    ensures { IfOk result (IsLeast (tree_of tree.now) (flat_map (sites_of_procedure (tree_of tree.now)) (tree_of tree.now).procedures)) }
{
    let procedures = Procedures::of(alloc, tree)?;
    let mut found = None;
    for procedure in tree.procedures.as_slice() {
        let inside = in_procedure(alloc, &procedures, procedure)?;
        found = earlier(found, inside);
    }
    Ok(found)
}

/// The first fault of `main` and of the inputs.
fn outside(tree: &Tree) -> Option<RegionError>
    ensures { IsLeastOf (tree_of tree.now) [] (Begins
        ∷ flat_map uses_of_main (tree_of tree.now).procedures ++ map Fills (tree_of tree.now).inputs) result }
{
    let main = earlier(of_begin(tree), of_mains(tree));
    earlier(main, of_inputs(tree))
}

/// The first fault of a program.
pub fn in_program(alloc: Global, tree: &Tree) -> Result<Option<RegionError>, NoMemory>
    ensures { IfOk result (IsLeast (tree_of tree.now) (sites_of (tree_of tree.now))) }
{
    let arrays = repeated(alloc, tree.arrays.as_slice())?;
    let procedures = repeated(alloc, tree.procedures.as_slice())?;
    let inputs = repeated(alloc, tree.inputs.as_slice())?;
    let inside = in_procedures(alloc, tree)?;
    let names = earlier(earlier(arrays, procedures), inputs);
    Ok(earlier(earlier(names, inside), outside(tree)))
}
