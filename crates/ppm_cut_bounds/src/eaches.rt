//! Whether the eaches of a block keep a bound, and what the block names of outside.
ghost use Rattle.std.specs.Prelude.{◌≡◌, [], ◌∷◌, ◌↔◌, ◌≤◌, ℕ, true, IsTrue, IfOk, OnOk};
ghost use Rattle.ppm_tree.specs.Tree.{statement_of, block_of, procedure_of};
ghost use Rattle.ppm_tree.specs.Parts.{statements_in, statement_and_inner};
ghost use Rattle.ppm_cut_bounds.specs.Names.{without, free_names, free_within, caught_count};
ghost use Rattle.ppm_cut_bounds.specs.Slots.{hidden_slots};
ghost use Rattle.ppm_cut_bounds.specs.Bounds.{KeepsAt, Keeps, limit_of, slot_limit, hidden_count};
ghost use Rattle.ppm_cut_bounds.specs.Bounds.{own_count};
ghost use Rattle.ppm_cut_bounds.specs.Catching.{Notes, Tells, HasEachOnce};

use crate::bound::{Bound, CAUGHT_LIMIT, SLOT_LIMIT};
use crate::names::Names;
use crate::slots::{names_fit, own_slots_fit, put_slots};
use crate::sought::has_each;
use crate::stop::Stop;
use crate::walk::Walk;
use ppm_tree::{Named, Proc, Stmt};
use ppm_words::NoMemory;
use std::alloc::Global;

/// Whether a hidden procedure for a block with so many names of outside may be within a bound;
/// where not, no walk is needed. A walk looks through the names in force for each name that it
/// meets.
fn may_keep(bound: Bound, block: &[Stmt]) -> bool
    ensures { (caught : ℕ) → hidden_count bound caught (block_of block.now) ≤ limit_of bound
        → result ≡ true }
{
    match bound {
        Bound::Slots => names_fit(block, SLOT_LIMIT),
        Bound::Caught => true,
    }
}

/// Whether the hidden procedure for a block with so many names of outside is within a bound.
fn hidden_keeps(bound: Bound, caught: usize, block: &[Stmt]) -> bool
    ensures { IsTrue result ↔ hidden_count bound caught (block_of block.now) ≤ limit_of bound }
{
    match bound {
        Bound::Slots => hidden_slots_fit(caught, block),
        Bound::Caught => caught <= CAUGHT_LIMIT,
    }
}

/// Whether a hidden procedure has no more slots than it may have: its part, its index, the names of
/// outside, then the names of its block or the two halves of its part, and those for assignments to
/// elements.
fn hidden_slots_fit(caught: usize, block: &[Stmt]) -> bool
    ensures { IsTrue result ↔ hidden_slots caught (block_of block.now) ≤ slot_limit }
{
    let Some(room) = SLOT_LIMIT.checked_sub(caught) else {
        return false;
    };
    let Some(room) = room.checked_sub(2 + put_slots(block)) else {
        return false;
    };
    if room < 2 {
        return false;
    }
    names_fit(block, room)
}

/// Whether a procedure itself is within a bound.
fn own_keeps(bound: Bound, procedure: &Proc) -> bool
    ensures { IsTrue result ↔ own_count bound (procedure_of procedure.now) ≤ limit_of bound }
{
    match bound {
        Bound::Slots => own_slots_fit(procedure),
        Bound::Caught => true,
    }
}

/// The names of outside that the block of an `each` names, if it and those in it keep a bound.
#[cycle(eaches)]
fn caught_by<'a>(
    alloc: Global,
    bound: Bound,
    index: &'a Named,
    part: &'a Named,
    block: &'a [Stmt],
) -> Result<Names<'a>, Stop>
    ensures names { IfOk result (HasEachOnce (without (index.now.name ∷ part.now.name
        ∷ []) (free_names (block_of block.now)))) }
    ensures kept { Tells result (KeepsAt bound (statements_in (block_of block.now))
        × hidden_count bound (caught_count index.now part.now (block_of block.now)) (block_of block.now) ≤ limit_of bound) }
{
    if !may_keep(bound, block) {
        return Err(Stop::Past);
    }
    let mut walk = Walk::new(alloc);
    in_block_with(alloc, bound, &mut walk, index, part, block)?;
    let caught = walk.into_caught();
    if !hidden_keeps(bound, caught.len(), block) {
        return Err(Stop::Past);
    }
    Ok(caught)
}

/// Goes through a block with two names more in force.
#[cycle(eaches)]
fn in_block_with<'a>(
    alloc: Global,
    bound: Bound,
    walk: &mut Walk<'a>,
    first: &'a Named,
    second: &'a Named,
    block: &'a [Stmt],
) -> Result<(), Stop>
    ensures names { OnOk result (Notes (without (first.now.name ∷ second.now.name
        ∷ []) (free_names (block_of block.now))) walk.old walk.new) }
    ensures kept { Tells result (KeepsAt bound (statements_in (block_of block.now))) }
{
    let before = walk.own_count();
    walk.declare(&first.name)?;
    walk.declare(&second.name)?;
    in_block(alloc, bound, walk, block)?;
    walk.leave(before);
    Ok(())
}

/// Goes through the blocks of a statement.
#[cycle(eaches)]
fn in_blocks_of<'a>(
    alloc: Global,
    bound: Bound,
    walk: &mut Walk<'a>,
    statement: &'a Stmt,
) -> Result<(), Stop>
    ensures names { OnOk result (Notes (free_within (statement_of statement.now)) walk.old walk.new) }
    ensures kept { Tells result (KeepsAt bound (statement_and_inner (statement_of statement.now))) }
{
    match statement {
        Stmt::If(_, block, other) => {
            in_block(alloc, bound, walk, block)?;
            in_block(alloc, bound, walk, other)
        }
        Stmt::While(_, block) => in_block(alloc, bound, walk, block),
        Stmt::Split(_, _, _, first, second, block) => {
            in_block_with(alloc, bound, walk, first, second, block)
        }
        Stmt::Each(index, part, _, block) => {
            let caught = caught_by(alloc, bound, index, part, block)?;
            walk.note_all(&caught)?;
            Ok(())
        }
        Stmt::Let(_, _)
        | Stmt::Assign(_, _)
        | Stmt::Put(_, _, _)
        | Stmt::Call(_)
        | Stmt::Fork(_, _) => Ok(()),
    }
}

/// Goes through a block.
#[cycle(eaches)]
fn in_block<'a>(
    alloc: Global,
    bound: Bound,
    walk: &mut Walk<'a>,
    block: &'a [Stmt],
) -> Result<(), Stop>
    ensures names { OnOk result (Notes (free_names (block_of block.now)) walk.old walk.new) }
    ensures kept { Tells result (KeepsAt bound (statements_in (block_of block.now))) }
{
    let before = walk.own_count();
    for statement in block {
        walk.used(statement)?;
        in_blocks_of(alloc, bound, walk, statement)?;
        walk.declare_lets(statement)?;
    }
    walk.leave(before);
    Ok(())
}

/// Whether a procedure keeps a bound.
pub fn keeps(alloc: Global, bound: Bound, procedure: &Proc) -> Result<bool, NoMemory>
    ensures { IfOk result (λ kept. IsTrue kept ↔ Keeps bound (procedure_of procedure.now)) }
{
    if !own_keeps(bound, procedure) {
        return Ok(false);
    }
    if !has_each(&procedure.body) {
        return Ok(true);
    }
    let mut walk = Walk::new(alloc);
    match in_block(alloc, bound, &mut walk, &procedure.body) {
        Ok(()) => Ok(true),
        Err(Stop::Past) => Ok(false),
        Err(Stop::NoMemory) => Err(NoMemory),
    }
}
