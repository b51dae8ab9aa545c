//! Whether the slots of a procedure are enough for its names.
ghost use Rattle.std.specs.Prelude.{◌≡◌, ◌↔◌, ◌≤◌, ◌<◌, ◌+◌, length, max, IsTrue, MatchOption};
ghost use Rattle.ppm_tree.specs.Tree.{statement_of, block_of, procedure_of};
ghost use Rattle.ppm_cut_bounds.specs.Names.{lets_of};
ghost use Rattle.ppm_cut_bounds.specs.Slots.{most_within, most_in_force, puts, has_put, put_slots};
ghost use Rattle.ppm_cut_bounds.specs.Slots.{slots_of};
ghost use Rattle.ppm_cut_bounds.specs.Bounds.{slot_limit};

use crate::bound::SLOT_LIMIT;
use ppm_tree::{Proc, Stmt};

/// How many slots a statement leaves for the rest of its block; `None` where its own names take
/// more.
#[cycle(names)]
fn left_behind(statement: &Stmt, room: usize) -> Option<usize>
    ensures { MatchOption result
        (room < max (most_within (statement_of statement.now)) (length (lets_of (statement_of statement.now))))
        (λ left. (most_within (statement_of statement.now) ≤ room)
        × left + length (lets_of (statement_of statement.now)) ≡ room) }
{
    match statement {
        Stmt::Let(_, _) => room.checked_sub(1),
        Stmt::If(_, block, other) => {
            if !names_fit(block, room) {
                return None;
            }
            names_fit(other, room).then_some(room)
        }
        Stmt::While(_, block) => names_fit(block, room).then_some(room),
        Stmt::Split(_, _, _, _, _, block) => {
            let inner = room.checked_sub(2)?;
            names_fit(block, inner).then_some(room)
        }
        Stmt::Assign(_, _)
        | Stmt::Put(_, _, _)
        | Stmt::Call(_)
        | Stmt::Fork(_, _)
        | Stmt::Each(_, _, _, _) => Some(room),
    }
}

/// Whether so many slots are enough for the names of a block that are in force at one point.
#[cycle(names)]
pub fn names_fit(block: &[Stmt], room: usize) -> bool
    ensures { IsTrue result ↔ most_in_force (block_of block.now) ≤ room }
{
    let mut left = room;
    for statement in block {
        let Some(behind) = left_behind(statement, left) else {
            return false;
        };
        left = behind;
    }
    true
}

/// Whether a statement assigns to an element, itself or in its blocks.
#[cycle(puts)]
fn puts(statement: &Stmt) -> bool
    ensures { result ≡ puts (statement_of statement.now) }
{
    match statement {
        Stmt::Put(_, _, _) => true,
        Stmt::If(_, block, other) => {
            if has_put(block) {
                return true;
            }
            has_put(other)
        }
        Stmt::While(_, block) => has_put(block),
        Stmt::Split(_, _, _, _, _, block) => has_put(block),
        Stmt::Let(_, _)
        | Stmt::Assign(_, _)
        | Stmt::Call(_)
        | Stmt::Fork(_, _)
        | Stmt::Each(_, _, _, _) => false,
    }
}

/// Whether a block assigns to an element.
#[cycle(puts)]
pub fn has_put(block: &[Stmt]) -> bool
    ensures { result ≡ has_put (block_of block.now) }
{
    for statement in block {
        if puts(statement) {
            return true;
        }
    }
    false
}

/// The slots that the assignments of a block to elements take.
pub fn put_slots(block: &[Stmt]) -> usize
    ensures { result ≡ put_slots (block_of block.now) }
{
    if has_put(block) { 2 } else { 0 }
}

/// Whether a procedure has no more slots than it may have; its hidden procedures have their own.
pub fn own_slots_fit(procedure: &Proc) -> bool
    ensures { IsTrue result ↔ slots_of (procedure_of procedure.now) ≤ slot_limit }
{
    let parameters = procedure.parameters.as_slice().len();
    let Some(room) = SLOT_LIMIT.checked_sub(parameters) else {
        return false;
    };
    match room.checked_sub(put_slots(&procedure.body)) {
        Some(left) => names_fit(&procedure.body, left),
        None => false,
    }
}
