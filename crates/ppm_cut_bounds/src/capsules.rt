//! Whether the capsules of a program are few enough.
ghost use Rattle.std.specs.Prelude.{◌≡◌, ◌↔◌, ◌≤◌, ◌<◌, ◌+◌, ◌*◌, length, map, IsTrue, MatchOption};
ghost use Rattle.std.specs.List.{sum};
ghost use Rattle.ppm_tree.specs.Tree.{statement_of, block_of, give_of, procedure_of};
ghost use Rattle.ppm_tree.specs.Parts.{statements_in, statement_and_inner, gives_of};
ghost use Rattle.ppm_cut_bounds.specs.Capsules.{capsules_of, capsules_at};
ghost use Rattle.ppm_cut_bounds.specs.Bounds.{capsule_limit};

use ppm_tree::{Give, Proc, Stmt};
use ppm_words::CAPSULE_LIMIT;

/// How many capsules a statement and those in its blocks leave of so many; `None` where they need
/// more.
#[cycle(capsules)]
fn left_by(statement: &Stmt, left: u32) -> Option<u32>
    ensures { MatchOption result
        (left < sum (map capsules_at (statement_and_inner (statement_of statement.now))))
        (λ rest. rest + sum (map capsules_at (statement_and_inner (statement_of statement.now)))
        ≡ left) }
{
    match statement {
        Stmt::If(_, block, other) => {
            let own = left.checked_sub(4)?;
            let rest = left_by_block(block, own)?;
            left_by_block(other, rest)
        }
        Stmt::While(_, block) => {
            let own = left.checked_sub(4)?;
            left_by_block(block, own)
        }
        Stmt::Split(_, _, _, _, _, block) => {
            let own = left.checked_sub(4)?;
            left_by_block(block, own)
        }
        Stmt::Each(_, _, _, block) => {
            let own = left.checked_sub(22)?;
            left_by_block(block, own)
        }
        Stmt::Let(_, _)
        | Stmt::Assign(_, _)
        | Stmt::Put(_, _, _)
        | Stmt::Call(_)
        | Stmt::Fork(_, _) => left.checked_sub(4),
    }
}

/// How many capsules a block leaves of so many; `None` where it needs more.
#[cycle(capsules)]
fn left_by_block(block: &[Stmt], left: u32) -> Option<u32>
    ensures { MatchOption result
        (left < sum (map capsules_at (statements_in (block_of block.now))))
        (λ rest. rest + sum (map capsules_at (statements_in (block_of block.now))) ≡ left) }
{
    let mut rest = left;
    for statement in block {
        rest = left_by(statement, rest)?;
    }
    Some(rest)
}

/// How many capsules what a body gives needs.
fn needed_to_give(give: &Option<Give>) -> u32
    ensures { result ≡ 4 * length (gives_of (give_of give.now)) }
{
    match give {
        None => 0,
        Some(_) => 4,
    }
}

/// How many capsules a procedure leaves of so many; `None` where it needs more.
fn left_by_procedure(procedure: &Proc, left: u32) -> Option<u32>
    ensures { MatchOption result
        (left < capsules_of (procedure_of procedure.now))
        (λ rest. rest + capsules_of (procedure_of procedure.now) ≡ left) }
{
    let begun = left.checked_sub(2)?;
    let given = begun.checked_sub(needed_to_give(&procedure.give))?;
    left_by_block(&procedure.body, given)
}

/// Whether the capsules of these procedures are few enough.
pub fn capsules_fit(procedures: &[Proc]) -> bool
    ensures { IsTrue result
        ↔ sum (map (λ p. capsules_of (procedure_of p)) procedures.now) ≤ capsule_limit }
{
    let mut left = CAPSULE_LIMIT;
    for procedure in procedures {
        let Some(rest) = left_by_procedure(procedure, left) else {
            return false;
        };
        left = rest;
    }
    true
}
