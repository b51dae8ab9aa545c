//! Whether the compiler takes a program.
ghost use Rattle.std.specs.Prelude.{◌≡◌, ◌≤◌, length, map, IfOk, IfErr, OnOk, MatchOption};
ghost use Rattle.std.specs.List.{AllByRecursion};
ghost use Rattle.ppm_tree.specs.Tree.{procedure_of, tree_of};
ghost use Rattle.ppm_tree.specs.Limits.{procedure_limit};
ghost use Rattle.ppm_cut_bounds.specs.Bounds.{Keeps, IsWithinBounds};
ghost use Rattle.ppm_cut_bounds.specs.Refusals.{IsFirstPast, IsRefused};

use crate::bound::Bound;
use crate::bound_error::BoundError;
use crate::capsules::capsules_fit;
use crate::eaches::keeps;
use ppm_tree::{Proc, Program, Tree};
use ppm_words::NoMemory;
use std::alloc::Global;

/// The number of the first procedure that doesn't keep a bound, if there is one.
fn first_past(alloc: Global, bound: Bound, procedures: &[Proc]) -> Result<Option<u32>, NoMemory>
    requires few { length procedures.now ≤ procedure_limit }
    ensures { IfOk result (λ first. MatchOption first
        (AllByRecursion (Keeps bound) (map procedure_of procedures.now))
        (IsFirstPast bound (map procedure_of procedures.now))) }
{
    let mut number = 0;
    for procedure in procedures {
        if !keeps(alloc, bound, procedure)? {
            return Ok(Some(number));
        }
        number += 1;
    }
    Ok(None)
}

/// Whether a tree is within the bounds: its slots are counted first, then names, then capsules.
pub fn tree_within_bounds(alloc: Global, tree: &Tree) -> Result<(), BoundError>
    requires few { length tree.now.procedures ≤ procedure_limit }
    ensures within { OnOk result (IsWithinBounds (tree_of tree.now)) }
    ensures refused { IfErr result (IsRefused (tree_of tree.now)) }
{
    let procedures = tree.procedures.as_slice();
    if let Some(number) = first_past(alloc, Bound::Slots, procedures)? {
        return Err(BoundError::TooManySlots(number));
    }
    if let Some(number) = first_past(alloc, Bound::Caught, procedures)? {
        return Err(BoundError::TooManyCaught(number));
    }
    if !capsules_fit(procedures) {
        return Err(BoundError::TooManyCapsules);
    }
    Ok(())
}

/// Whether the compiler takes a program: 24 slots in each procedure and in the hidden one of each
/// `each`, 10 names of outside in the block of an `each`, and 65,535 capsules, counted as four for
/// each statement and two for each procedure.
pub fn within_bounds(alloc: Global, program: &Program) -> Result<(), BoundError>
    ensures within { OnOk result (IsWithinBounds (tree_of program.now)) }
    ensures refused { IfErr result (IsRefused (tree_of program.now)) }
{
    tree_within_bounds(alloc, program.tree())
}
