//! How many capsules the code of a program has at most.
ghost use Rattle.std.specs.Prelude.{◌≡◌, ◌+◌, ◌*◌, length, map, IfOk};
ghost use Rattle.std.specs.List.{sum};
ghost use Rattle.ppm_tree.specs.Tree.{statement_of, block_of, give_of, procedure_of, tree_of};
ghost use Rattle.ppm_tree.specs.Parts.{statements_in, statement_and_inner, gives_of};
ghost use Rattle.ppm_cut_bounds.specs.Capsules.{capsules_of, capsules_at, capsule_bound};

use crate::slots::plus;
use ppm_tree::{Give, Proc, Stmt, Tree};
use ppm_words::NoMemory;

/// How many capsules a statement needs, with those in its blocks.
#[cycle(capsules)]
fn at_statement(statement: &Stmt) -> Result<usize, NoMemory>
    ensures { IfOk result (λ n. n
        ≡ sum (map capsules_at (statement_and_inner (statement_of statement.now)))) }
{
    match statement {
        Stmt::If(_, block, other) => {
            let holds = in_block(block)?;
            let fails = in_block(other)?;
            let inner = plus(holds, fails)?;
            plus(4, inner)
        }
        Stmt::While(_, block) => {
            let inner = in_block(block)?;
            plus(4, inner)
        }
        Stmt::Split(_, _, _, _, _, block) => {
            let inner = in_block(block)?;
            plus(4, inner)
        }
        Stmt::Each(_, _, _, block) => {
            let inner = in_block(block)?;
            plus(22, inner)
        }
        Stmt::Let(_, _)
        | Stmt::Assign(_, _)
        | Stmt::Put(_, _, _)
        | Stmt::Call(_)
        | Stmt::Fork(_, _) => Ok(4),
    }
}

/// How many capsules a block needs.
#[cycle(capsules)]
fn in_block(block: &[Stmt]) -> Result<usize, NoMemory>
    ensures { IfOk result (λ n. n ≡ sum (map capsules_at (statements_in (block_of block.now)))) }
{
    let mut count: usize = 0;
    for statement in block {
        count = plus(count, at_statement(statement)?)?;
    }
    Ok(count)
}

/// How many capsules what a body gives needs.
fn of_give(give: &Option<Give>) -> usize
    ensures { result ≡ 4 * length (gives_of (give_of give.now)) }
{
    match give {
        None => 0,
        Some(_) => 4,
    }
}

/// How many capsules a procedure needs.
fn of_procedure(procedure: &Proc) -> Result<usize, NoMemory>
    ensures { IfOk result (λ n. n ≡ capsules_of (procedure_of procedure.now)) }
{
    let body = in_block(&procedure.body)?;
    let begun = plus(body, 2)?;
    plus(begun, of_give(&procedure.give))
}

/// How many capsules the code of a program has at most: four for each statement, and two for each
/// procedure. `Err` only where memory is refused.
pub fn capsule_count(tree: &Tree) -> Result<usize, NoMemory>
    ensures { IfOk result (λ n. n ≡ capsule_bound (tree_of tree.now)) }
{
    let mut count: usize = 0;
    for procedure in tree.procedures.as_slice() {
        count = plus(count, of_procedure(procedure)?)?;
    }
    Ok(count)
}
