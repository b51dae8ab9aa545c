//! How many names of outside the block of an `each` names.
ghost use Rattle.std.specs.Prelude.{◌≡◌, [], ◌∷◌, IfOk, OnOk};
ghost use Rattle.ppm_tree.specs.Tree.{statement_of, block_of};
ghost use Rattle.ppm_cut_bounds.specs.Names.{without, free_names, free_within, caught_count};
ghost use Rattle.ppm_cut_bounds.specs.Catching.{Notes};

use crate::walk::Walk;
use ppm_tree::{Named, Stmt};
use ppm_words::NoMemory;
use std::alloc::Global;

/// Goes through a block with two names more in force.
#[cycle(outside)]
fn in_block_with<'a>(
    walk: &mut Walk<'a>,
    first: &'a Named,
    second: &'a Named,
    block: &'a [Stmt],
) -> Result<(), NoMemory>
    ensures { OnOk result (Notes (without (first.now.name ∷ second.now.name
        ∷ []) (free_names (block_of block.now))) walk.old walk.new) }
{
    let before = walk.own_count();
    walk.declare(&first.name)?;
    walk.declare(&second.name)?;
    in_block(walk, block)?;
    walk.leave(before);
    Ok(())
}

/// Goes through the blocks of a statement.
#[cycle(outside)]
fn in_blocks_of<'a>(walk: &mut Walk<'a>, statement: &'a Stmt) -> Result<(), NoMemory>
    ensures { OnOk result (Notes (free_within (statement_of statement.now)) walk.old walk.new) }
{
    match statement {
        Stmt::If(_, block, other) => {
            in_block(walk, block)?;
            in_block(walk, other)
        }
        Stmt::While(_, block) => in_block(walk, block),
        Stmt::Split(_, _, _, first, second, block) => in_block_with(walk, first, second, block),
        Stmt::Each(index, part, _, block) => in_block_with(walk, index, part, block),
        Stmt::Let(_, _)
        | Stmt::Assign(_, _)
        | Stmt::Put(_, _, _)
        | Stmt::Call(_)
        | Stmt::Fork(_, _) => Ok(()),
    }
}

/// Goes through a block.
#[cycle(outside)]
fn in_block<'a>(walk: &mut Walk<'a>, block: &'a [Stmt]) -> Result<(), NoMemory>
    ensures { OnOk result (Notes (free_names (block_of block.now)) walk.old walk.new) }
{
    let before = walk.own_count();
    for statement in block {
        walk.used(statement)?;
        in_blocks_of(walk, statement)?;
        walk.declare_lets(statement)?;
    }
    walk.leave(before);
    Ok(())
}

/// How many names of outside the block of an `each` with this index and part names, each once.
pub fn outside_count(
    alloc: Global,
    index: &Named,
    part: &Named,
    block: &[Stmt],
) -> Result<usize, NoMemory>
    ensures { IfOk result (λ n. n ≡ caught_count index.now part.now (block_of block.now)) }
{
    let mut walk = Walk::new(alloc);
    in_block_with(&mut walk, index, part, block)?;
    Ok(walk.caught_count())
}
