//! Faults in the statements of a procedure.
ghost use Rattle.std.specs.Prelude.{◌≡◌, [], ◌∷◌, ◌++◌, IfOk, OnOk, map};
ghost use Rattle.ppm_tree.specs.Tree.{ProgramTree, statement_of, block_of, give_of, procedure_of};
ghost use Rattle.ppm_tree.specs.Tree.{tree_of};
ghost use Rattle.ppm_regions.specs.Scope.{of_parameter, lets_of, scope_behind};
ghost use Rattle.ppm_regions.specs.Kept.{Becomes, seen};
ghost use Rattle.ppm_regions.specs.Uses.{uses_of, sites_within, sites_of_block, sites_of_give};
ghost use Rattle.ppm_regions.specs.Uses.{sites_of_procedure, declaration_sites};
ghost use Rattle.ppm_regions.specs.Deciding.{IsLeast, IsLeastOf};

use crate::ask::Ask;
use crate::calling::{in_call, in_fork};
use crate::declaring::declare;
use crate::expression::in_expression;
use crate::found::earlier;
use crate::naming::asked;
use crate::procedures::Procedures;
use crate::region_error::RegionError;
use crate::scope::{Declaration, Scope};
use ppm_tree::{Give, Mode, Parameter, Proc, Stmt};
use ppm_words::NoMemory;
use std::alloc::Global;

/// The first fault of a statement itself.
fn in_uses(
    alloc: Global,
    procedures: &Procedures,
    scope: &Scope,
    statement: &Stmt,
) -> Result<Option<RegionError>, NoMemory>
    ensures { IfOk result (λ found. IsLeastOf (tree_of procedures.now) (seen scope.now) (uses_of (tree_of procedures.now) (statement_of statement.now)) found) }
{
    match statement {
        Stmt::Let(_, value) => Ok(in_expression(scope, value)),
        Stmt::Assign(name, value) => {
            let inside = in_expression(scope, value);
            Ok(earlier(asked(scope, Ask::Assigned, name), inside))
        }
        Stmt::Put(name, index, value) => {
            let inside = in_expression(scope, index);
            let written = earlier(asked(scope, Ask::Written, name), inside);
            Ok(earlier(written, in_expression(scope, value)))
        }
        Stmt::If(test, _, _) | Stmt::While(test, _) => Ok(in_expression(scope, test)),
        Stmt::Call(side) => in_call(alloc, procedures, scope, side),
        Stmt::Fork(left, right) => in_fork(alloc, procedures, scope, left, right),
        Stmt::Split(_, region, at, _, _, _) => {
            let inside = in_expression(scope, at);
            Ok(earlier(asked(scope, Ask::Region, region), inside))
        }
        Stmt::Each(_, _, region, _) => Ok(asked(scope, Ask::Region, region)),
    }
}

/// The first fault in a block with the same declarations in force.
#[cycle(block)]
fn in_inner<'a>(
    alloc: Global,
    procedures: &Procedures,
    scope: &mut Scope<'a>,
    block: &'a [Stmt],
) -> Result<Option<RegionError>, NoMemory>
    ensures least { IfOk result (IsLeast (tree_of procedures.now)
        (sites_of_block (tree_of procedures.now) (seen scope.old) (block_of block.now))) }
    ensures scope { OnOk result (scope.new ≡ scope.old) }
{
    let count = scope.len();
    let found = in_block(alloc, procedures, scope, block)?;
    scope.truncate(count);
    Ok(found)
}

/// The first fault in a block with two things more in force.
#[cycle(block)]
fn in_inner_with<'a>(
    alloc: Global,
    procedures: &Procedures,
    scope: &mut Scope<'a>,
    first: Declaration<'a>,
    second: Declaration<'a>,
    block: &'a [Stmt],
) -> Result<Option<RegionError>, NoMemory>
    ensures least { IfOk result (IsLeast (tree_of procedures.now) (declaration_sites (seen scope.old) (first.entry ∷ second.entry ∷ [])
        ++ sites_of_block (tree_of procedures.now) (seen scope.old ++ first.entry ∷ second.entry
        ∷ []) (block_of block.now))) }
    ensures scope { OnOk result (scope.new ≡ scope.old) }
{
    let count = scope.len();
    let twice = declare(scope, first)?;
    let again = declare(scope, second)?;
    let inside = in_block(alloc, procedures, scope, block)?;
    scope.truncate(count);
    Ok(earlier(earlier(twice, again), inside))
}

/// The first fault in the blocks of a statement.
#[cycle(block)]
fn within<'a>(
    alloc: Global,
    procedures: &Procedures,
    scope: &mut Scope<'a>,
    statement: &'a Stmt,
) -> Result<Option<RegionError>, NoMemory>
    ensures least { IfOk result (IsLeast (tree_of procedures.now)
        (sites_within (tree_of procedures.now) (seen scope.old) (statement_of statement.now))) }
    ensures scope { OnOk result (scope.new ≡ scope.old) }
{
    match statement {
        Stmt::If(_, block, other) => {
            let holds = in_inner(alloc, procedures, scope, block)?;
            let fails = in_inner(alloc, procedures, scope, other)?;
            Ok(earlier(holds, fails))
        }
        Stmt::While(_, block) => in_inner(alloc, procedures, scope, block),
        Stmt::Split(_, region, _, first, second, block) => {
            let first = scope.part(region, first);
            let second = scope.part(region, second);
            scope.enter_split(region)?;
            let inside = in_inner_with(alloc, procedures, scope, first, second, block)?;
            scope.leave();
            Ok(inside)
        }
        Stmt::Each(index, element, region, block) => {
            let index = Declaration::index(index);
            let element = scope.part(region, element);
            scope.enter_each(region)?;
            let inside = in_inner_with(alloc, procedures, scope, index, element, block)?;
            scope.leave();
            Ok(inside)
        }
        Stmt::Let(_, _)
        | Stmt::Assign(_, _)
        | Stmt::Put(_, _, _)
        | Stmt::Call(_)
        | Stmt::Fork(_, _) => Ok(None),
    }
}

/// Declares what a statement does for the rest of its block; its fault, if its name is in force.
fn behind<'a>(scope: &mut Scope<'a>, statement: &'a Stmt) -> Result<Option<RegionError>, NoMemory>
    ensures least { IfOk result (λ found. (t : ProgramTree)
        → IsLeast t (declaration_sites (seen scope.old) (lets_of (statement_of statement.now))) found) }
    ensures scope { OnOk result (Becomes (λ s. s ++ lets_of (statement_of statement.now)) scope.old scope.new) }
{
    match statement {
        Stmt::Let(name, _) => declare(scope, Declaration::plain(Mode::Int, name)),
        Stmt::Assign(_, _)
        | Stmt::Put(_, _, _)
        | Stmt::If(_, _, _)
        | Stmt::While(_, _)
        | Stmt::Call(_)
        | Stmt::Fork(_, _)
        | Stmt::Split(_, _, _, _, _, _)
        | Stmt::Each(_, _, _, _) => Ok(None),
    }
}

/// The first fault in a block; what it declares stays in force.
#[cycle(block)]
fn in_block<'a>(
    alloc: Global,
    procedures: &Procedures,
    scope: &mut Scope<'a>,
    block: &'a [Stmt],
) -> Result<Option<RegionError>, NoMemory>
    ensures least { IfOk result (IsLeast (tree_of procedures.now) (sites_of_block (tree_of procedures.now) (seen scope.old) (block_of block.now))) }
    ensures scope { OnOk result (Becomes (λ s. scope_behind s (block_of block.now)) scope.old scope.new) }
{
    let mut found = None;
    for statement in block {
        let used = in_uses(alloc, procedures, scope, statement)?;
        let inside = within(alloc, procedures, scope, statement)?;
        let twice = behind(scope, statement)?;
        found = earlier(found, earlier(earlier(used, inside), twice));
    }
    Ok(found)
}

/// The first fault of what a body gives.
fn in_give(scope: &Scope, give: &Option<Give>) -> Option<RegionError>
    ensures { (t : ProgramTree)
        → IsLeast t (sites_of_give t (seen scope.now) (give_of give.now)) result }
{
    match give {
        None => None,
        Some(give) => in_expression(scope, &give.value),
    }
}

/// Declares the parameters; the first fault of one whose name is in force.
fn declare_all<'a>(
    scope: &mut Scope<'a>,
    parameters: &'a [Parameter],
) -> Result<Option<RegionError>, NoMemory>
    ensures least { IfOk result (λ found. (t : ProgramTree)
        → IsLeast t (declaration_sites (seen scope.old) (map of_parameter parameters.now)) found) }
    ensures scope { OnOk result (Becomes (λ s. s ++ map of_parameter parameters.now) scope.old scope.new) }
{
    let mut found = None;
    for parameter in parameters {
        let twice = declare(scope, Declaration::plain(parameter.mode, &parameter.name))?;
        found = earlier(found, twice);
    }
    Ok(found)
}

/// The first fault in a procedure.
pub fn in_procedure(
    alloc: Global,
    procedures: &Procedures,
    procedure: &Proc,
) -> Result<Option<RegionError>, NoMemory>
    ensures { IfOk result (IsLeast (tree_of procedures.now) (sites_of_procedure (tree_of procedures.now) (procedure_of procedure.now))) }
{
    let mut scope = Scope::new(alloc);
    let twice = declare_all(&mut scope, procedure.parameters.as_slice())?;
    let inside = in_block(alloc, procedures, &mut scope, &procedure.body)?;
    let given = in_give(&scope, &procedure.give);
    Ok(earlier(earlier(twice, inside), given))
}
