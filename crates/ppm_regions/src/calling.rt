//! Faults of calls and of the sides of forks.
ghost use Rattle.std.specs.Prelude.{◌≡◌, [], ◌∷◌, ◌++◌, IfOk, map};
ghost use Rattle.ppm_tree.specs.Tree.{ProgramTree, Call, Fork, expression_of, side_of, tree_of};
ghost use Rattle.ppm_regions.specs.Scope.{Scope as Declarations};
ghost use Rattle.ppm_regions.specs.Kept.{seen};
ghost use Rattle.ppm_regions.specs.Uses.{uses_of_spare, uses_of_lent, uses_of_argument};
ghost use Rattle.ppm_regions.specs.Uses.{uses_of_arguments, uses_of_target, both_targets};
ghost use Rattle.ppm_regions.specs.Uses.{uses_of_side, uses_of, lent_by, Calls, Delivers};
ghost use Rattle.ppm_regions.specs.Deciding.{argument_of, IsLeastOf};

use crate::ask::Ask;
use crate::expression::in_expression;
use crate::found::earlier;
use crate::lending::{Lending, lend_all, lent_together};
use crate::naming::{asked, one_target};
use crate::procedures::Procedures;
use crate::region_error::RegionError;
use crate::scope::Scope;
use ppm_tree::{Argument, Expr, Mode, Named, Parameter, Side};
use ppm_words::NoMemory;
use std::alloc::Global;

/// The first fault of an argument past the last parameter.
fn in_spare(scope: &Scope, argument: &Expr) -> Option<RegionError>
    ensures { (t : ProgramTree)
        → IsLeastOf t (seen scope.now) (uses_of_spare (expression_of argument.now)) result }
{
    let Expr::Name(name) = argument else {
        return in_expression(scope, argument);
    };
    asked(scope, Ask::Any, name)
}

/// The first fault of an argument for a region.
fn in_lent(scope: &Scope, ask: Ask, argument: &Argument) -> Option<RegionError>
    ensures { (t : ProgramTree)
        → IsLeastOf t (seen scope.now) (uses_of_lent ask argument.now.line (expression_of argument.now.value)) result }
{
    let Expr::Name(name) = &argument.value else {
        let inside = in_expression(scope, &argument.value);
        return earlier(Some(RegionError::WrongKind(argument.line)), inside);
    };
    asked(scope, ask, name)
}

/// The first fault of an argument for a parameter of this mode.
fn in_argument(scope: &Scope, mode: Mode, argument: &Argument) -> Option<RegionError>
    ensures { (t : ProgramTree)
        → IsLeastOf t (seen scope.now) (uses_of_argument mode (argument_of argument.now)) result }
{
    match mode {
        Mode::Int => in_expression(scope, &argument.value),
        Mode::Ref => in_lent(scope, Ask::Region, argument),
        Mode::Mut => in_lent(scope, Ask::Written, argument),
    }
}

/// The first fault of the arguments of a call.
fn in_arguments(
    scope: &Scope,
    parameters: &[Parameter],
    arguments: &[Argument],
) -> Option<RegionError>
    ensures { (t : ProgramTree)
        → IsLeastOf t (seen scope.now) (uses_of_arguments parameters.now (map argument_of arguments.now)) result }
{
    let [argument, more @ ..] = arguments else {
        return None;
    };
    match parameters {
        [] => {
            let behind = in_arguments(scope, parameters, more);
            earlier(in_spare(scope, &argument.value), behind)
        }
        [parameter, rest @ ..] => {
            let behind = in_arguments(scope, rest, more);
            earlier(in_argument(scope, parameter.mode, argument), behind)
        }
    }
}

/// The fault of a procedure that is called with so many arguments.
fn of_call(procedures: &Procedures, name: &Named, arguments: usize) -> Option<RegionError>
    ensures { (s : Declarations)
        → IsLeastOf (tree_of procedures.now) s (Calls name.now arguments ∷ []) result }
{
    match procedures.callee(name) {
        None => Some(RegionError::UnknownName(name.line)),
        Some(procedure) => {
            if procedure.parameters.as_slice().len() != arguments {
                return Some(RegionError::WrongCount(name.line));
            }
            None
        }
    }
}

/// The fault of a procedure whose value is stored.
fn of_value(procedures: &Procedures, name: &Named) -> Option<RegionError>
    ensures { (s : Declarations)
        → IsLeastOf (tree_of procedures.now) s (Delivers name.now ∷ []) result }
{
    match procedures.callee(name) {
        None => None,
        Some(procedure) => match &procedure.give {
            None => Some(RegionError::NoValue(name.line)),
            Some(_) => None,
        },
    }
}

/// The first fault of a target of a call of the procedure.
fn of_target(
    procedures: &Procedures,
    scope: &Scope,
    callee: &Named,
    target: &Option<Named>,
) -> Option<RegionError>
    ensures { IsLeastOf (tree_of procedures.now) (seen scope.now) (uses_of_target callee.now target.now) result }
{
    match target {
        None => None,
        Some(name) => earlier(
            asked(scope, Ask::Assigned, name),
            of_value(procedures, callee),
        ),
    }
}

/// The fault of two targets of a fork.
fn of_targets(left: &Option<Named>, right: &Option<Named>) -> Option<RegionError>
    ensures { (t : ProgramTree) → (s : Declarations)
        → IsLeastOf t s (both_targets left.now right.now) result }
{
    match (left, right) {
        (Some(left), Some(right)) => one_target(left, right),
        (None, _) | (_, None) => None,
    }
}

/// The first fault of a call, or of a side of a fork.
fn in_side(procedures: &Procedures, scope: &Scope, side: &Side) -> Option<RegionError>
    ensures { IsLeastOf (tree_of procedures.now) (seen scope.now) (uses_of_side (tree_of procedures.now) (side_of side.now)) result }
{
    let parameters = procedures.parameters(&side.callee);
    let arguments = side.arguments.as_slice();
    let stored = of_target(procedures, scope, &side.callee, &side.target);
    let called = of_call(procedures, &side.callee, arguments.len());
    let inside = in_arguments(scope, parameters, arguments);
    earlier(stored, earlier(called, inside))
}

/// Adds the regions that a side lends.
fn lend_by<'a>(
    lendings: &mut Vec<Lending<'a>>,
    procedures: &Procedures,
    side: &'a Side,
) -> Result<(), NoMemory>
    ensures { IfOk result (λ _. lendings.new.items
        ≡ lendings.old.items ++ lent_by (tree_of procedures.now) (side_of side.now)) }
{
    let parameters = procedures.parameters(&side.callee);
    lend_all(lendings, parameters, side.arguments.as_slice())
}

/// The first fault of a call.
pub fn in_call(
    alloc: Global,
    procedures: &Procedures,
    scope: &Scope,
    side: &Side,
) -> Result<Option<RegionError>, NoMemory>
    ensures { IfOk result (λ found. IsLeastOf (tree_of procedures.now) (seen scope.now) (uses_of (tree_of procedures.now) (Call (side_of side.now))) found) }
{
    let mut lendings = Vec::new(alloc);
    lend_by(&mut lendings, procedures, side)?;
    let called = in_side(procedures, scope, side);
    Ok(earlier(called, lent_together(&lendings)))
}

/// The first fault of a fork.
pub fn in_fork(
    alloc: Global,
    procedures: &Procedures,
    scope: &Scope,
    left: &Side,
    right: &Side,
) -> Result<Option<RegionError>, NoMemory>
    ensures { IfOk result (λ found. IsLeastOf (tree_of procedures.now) (seen scope.now) (uses_of (tree_of procedures.now) (Fork (side_of left.now) (side_of right.now))) found) }
{
    let mut lendings = Vec::new(alloc);
    lend_by(&mut lendings, procedures, left)?;
    lend_by(&mut lendings, procedures, right)?;
    let on_left = in_side(procedures, scope, left);
    let on_right = in_side(procedures, scope, right);
    let targets = of_targets(&left.target, &right.target);
    let lent = lent_together(&lendings);
    let sides = earlier(earlier(on_left, on_right), targets);
    Ok(earlier(sides, lent))
}
