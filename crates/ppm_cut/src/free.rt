//! Whether a name is one of those of outside that a block names.
ghost use Rattle.std.specs.Prelude.{◌≡◌, [], ◌∷◌, map};
ghost use Rattle.ppm_tree.specs.Tree.{expression_of, statement_of, block_of};
ghost use Rattle.ppm_cut_bounds.specs.Names.{used_by, lets_of, without, free_within, free_names};
ghost use Rattle.ppm_cut_bounds.specs.Catching.{has, names_in, names_of_target};

use ppm_tree::{Argument, Expr, Named, Side, Stmt};
use ppm_words::Name;

/// Whether an expression names it.
fn is_in(expression: &Expr, name: &Name) -> bool
    ensures { result ≡ has (names_in (expression_of expression.now ∷ [])) name.now }
{
    match expression {
        Expr::Number(_) => false,
        Expr::Name(other) | Expr::Len(other) => name.is(&other.name),
        Expr::Element(region, index) => {
            if name.is(&region.name) {
                return true;
            }
            is_in(index, name)
        }
        Expr::Minus(_, operand) => is_in(operand, name),
        Expr::Binary(_, _, left, right) => {
            if is_in(left, name) {
                return true;
            }
            is_in(right, name)
        }
    }
}

/// Whether one of these arguments names it.
fn is_in_arguments(arguments: &[Argument], name: &Name) -> bool
    ensures { result ≡ has (names_in (map (λ a. expression_of a.value) arguments.now)) name.now }
{
    for argument in arguments {
        if is_in(&argument.value, name) {
            return true;
        }
    }
    false
}

/// Whether it is the name of a target.
fn is_target(target: &Option<Named>, name: &Name) -> bool
    ensures { result ≡ has (names_of_target target.now) name.now }
{
    match target {
        None => false,
        Some(other) => name.is(&other.name),
    }
}

/// Whether a statement uses it outside its blocks.
fn is_used(statement: &Stmt, name: &Name) -> bool
    ensures { result ≡ has (used_by (statement_of statement.now)) name.now }
{
    match statement {
        Stmt::Let(_, value) => is_in(value, name),
        Stmt::Assign(local, value) => {
            if name.is(&local.name) {
                return true;
            }
            is_in(value, name)
        }
        Stmt::Put(region, index, value) => {
            if name.is(&region.name) {
                return true;
            }
            if is_in(index, name) {
                return true;
            }
            is_in(value, name)
        }
        Stmt::If(test, _, _) | Stmt::While(test, _) => is_in(test, name),
        Stmt::Call(side) => {
            if is_target(&side.target, name) {
                return true;
            }
            is_in_arguments(side.arguments.as_slice(), name)
        }
        Stmt::Fork(left, right) => {
            if is_target(&left.target, name) {
                return true;
            }
            if is_target(&right.target, name) {
                return true;
            }
            if is_in_arguments(left.arguments.as_slice(), name) {
                return true;
            }
            is_in_arguments(right.arguments.as_slice(), name)
        }
        Stmt::Split(_, region, at, _, _, _) => {
            if name.is(&region.name) {
                return true;
            }
            is_in(at, name)
        }
        Stmt::Each(_, _, region, _) => name.is(&region.name),
    }
}

/// Whether a statement declares it for the rest of its block.
fn is_let(statement: &Stmt, name: &Name) -> bool
    ensures { result ≡ has (lets_of (statement_of statement.now)) name.now }
{
    match statement {
        Stmt::Let(local, _) => name.is(&local.name),
        Stmt::Assign(_, _)
        | Stmt::Put(_, _, _)
        | Stmt::If(_, _, _)
        | Stmt::While(_, _)
        | Stmt::Call(_)
        | Stmt::Fork(_, _)
        | Stmt::Split(_, _, _, _, _, _)
        | Stmt::Each(_, _, _, _) => false,
    }
}

/// Whether a block names it, and neither of two that are declared in front.
#[cycle(free)]
fn is_free_under(first: &Named, second: &Named, block: &[Stmt], name: &Name) -> bool
    ensures { result
        ≡ has (without (first.now.name ∷ second.now.name
        ∷ []) (free_names (block_of block.now))) name.now }
{
    if name.is(&first.name) {
        return false;
    }
    if name.is(&second.name) {
        return false;
    }
    is_free(block, name)
}

/// Whether it is a name of outside in the blocks of a statement.
#[cycle(free)]
fn is_free_within(statement: &Stmt, name: &Name) -> bool
    ensures { result ≡ has (free_within (statement_of statement.now)) name.now }
{
    match statement {
        Stmt::If(_, block, other) => {
            if is_free(block, name) {
                return true;
            }
            is_free(other, name)
        }
        Stmt::While(_, block) => is_free(block, name),
        Stmt::Split(_, _, _, first, second, block) => is_free_under(first, second, block, name),
        Stmt::Each(index, part, _, block) => is_free_under(index, part, block, name),
        Stmt::Let(_, _)
        | Stmt::Assign(_, _)
        | Stmt::Put(_, _, _)
        | Stmt::Call(_)
        | Stmt::Fork(_, _) => false,
    }
}

/// Whether it is a name of outside that a block names.
#[cycle(free)]
pub fn is_free(block: &[Stmt], name: &Name) -> bool
    ensures { result ≡ has (free_names (block_of block.now)) name.now }
{
    for statement in block {
        if is_used(statement, name) {
            return true;
        }
        if is_free_within(statement, name) {
            return true;
        }
        if is_let(statement, name) {
            return false;
        }
    }
    false
}
