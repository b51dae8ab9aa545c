//! How many slots a procedure has, and the hidden procedure of an `each`.
ghost use Rattle.std.specs.Prelude.{◌≡◌, ◌+◌, length, IfOk};
ghost use Rattle.ppm_tree.specs.Tree.{statement_of, block_of, procedure_of};
ghost use Rattle.ppm_cut_bounds.specs.Names.{lets_of};
ghost use Rattle.ppm_cut_bounds.specs.Slots.{most_within, most_in_force, put_slots};
ghost use Rattle.ppm_cut_bounds.specs.Slots.{slots_of as slots_in, hidden_slots as slots_behind};

use ppm_cut_bounds::has_put;
use ppm_tree::{Proc, Stmt};
use ppm_words::NoMemory;

/// The sum of two counts. What is counted lies in memory, so a sum past all numbers is want of it.
pub fn plus(a: usize, b: usize) -> Result<usize, NoMemory>
    ensures { IfOk result (λ n. n ≡ a + b) }
{
    match a.checked_add(b) {
        Some(sum) => Ok(sum),
        None => Err(NoMemory),
    }
}

/// The names that a statement's blocks have in force at one point, at most.
#[cycle(most)]
fn most_within(statement: &Stmt) -> Result<usize, NoMemory>
    ensures { IfOk result (λ n. n ≡ most_within (statement_of statement.now)) }
{
    match statement {
        Stmt::If(_, block, other) => {
            let first = most_in_force(block)?;
            let second = most_in_force(other)?;
            Ok(first.max(second))
        }
        Stmt::While(_, block) => most_in_force(block),
        Stmt::Split(_, _, _, _, _, block) => {
            let inner = most_in_force(block)?;
            plus(2, inner)
        }
        Stmt::Let(_, _)
        | Stmt::Assign(_, _)
        | Stmt::Put(_, _, _)
        | Stmt::Call(_)
        | Stmt::Fork(_, _)
        | Stmt::Each(_, _, _, _) => Ok(0),
    }
}

/// How many names a statement declares for the rest of its block.
fn let_count(statement: &Stmt) -> usize
    ensures { result ≡ length (lets_of (statement_of statement.now)) }
{
    match statement {
        Stmt::Let(_, _) => 1,
        Stmt::Assign(_, _)
        | Stmt::Put(_, _, _)
        | Stmt::If(_, _, _)
        | Stmt::While(_, _)
        | Stmt::Call(_)
        | Stmt::Fork(_, _)
        | Stmt::Split(_, _, _, _, _, _)
        | Stmt::Each(_, _, _, _) => 0,
    }
}

/// The names of a block that are in force at one point, at most.
#[cycle(most)]
fn most_in_force(block: &[Stmt]) -> Result<usize, NoMemory>
    ensures { IfOk result (λ n. n ≡ most_in_force (block_of block.now)) }
{
    let mut most: usize = 0;
    let mut lets: usize = 0;
    for statement in block {
        let inner = most_within(statement)?;
        let here = plus(lets, inner)?;
        most = here.max(most);
        lets = plus(lets, let_count(statement))?;
    }
    Ok(lets.max(most))
}

/// The slots that the assignments of a block to elements take.
fn put_slots(block: &[Stmt]) -> usize
    ensures { result ≡ put_slots (block_of block.now) }
{
    if has_put(block) { 2 } else { 0 }
}

/// The slots of a procedure; its hidden procedures have their own.
pub fn slots_of(procedure: &Proc) -> Result<usize, NoMemory>
    ensures { IfOk result (λ n. n ≡ slots_in (procedure_of procedure.now)) }
{
    let most = most_in_force(&procedure.body)?;
    let named = plus(procedure.parameters.as_slice().len(), most)?;
    plus(named, put_slots(&procedure.body))
}

/// The slots of the hidden procedure of an `each` with this block and so many names of outside.
pub fn hidden_slots(caught: usize, block: &[Stmt]) -> Result<usize, NoMemory>
    ensures { IfOk result (λ n. n ≡ slots_behind caught (block_of block.now)) }
{
    let most = most_in_force(block)?;
    let outer = plus(2, caught)?;
    let named = plus(outer, most.max(2))?;
    plus(named, put_slots(block))
}
