//! How many slots the frames of a procedure have.
ghost use Rattle.std.specs.Prelude.{◌≡◌, ◌≤◌, ◌+◌, ◌*◌, length};
ghost use Rattle.ppm_tree.specs.Tree.{statement_of, block_of, procedure_of};
ghost use Rattle.ppm_cut_bounds.specs.Names.{lets_of};
ghost use Rattle.ppm_cut_bounds.specs.Slots.{most_within, most_in_force};
ghost use Rattle.ppm_cut_code.specs.Slots.{assigns, has_assignment, spare_slots, named_slots};
ghost use Rattle.ppm_cut_code.specs.Slots.{procedure_slots};
ghost use Rattle.ppm_cut_code.specs.Slots.{hidden_named_slots, hidden_slots};
ghost use Rattle.ppm_cut.specs.Counts.{count_limit, own_count, own_count_in};

use ppm_cut_bounds::has_put;
use ppm_tree::{Proc, Stmt};

/// The names that a statement's blocks have in force at one point, at most.
#[cycle(names)]
fn most_within(statement: &Stmt) -> u32
    requires counts { own_count (statement_of statement.now) ≤ count_limit }
    ensures value { result ≡ most_within (statement_of statement.now) }
    ensures within { 2 * result ≤ own_count (statement_of statement.now) }
{
    match statement {
        Stmt::If(_, block, other) => {
            let first = most_in_force(block);
            first.max(most_in_force(other))
        }
        Stmt::While(_, block) => most_in_force(block),
        Stmt::Split(_, _, _, _, _, block) => most_in_force(block) + 2,
        Stmt::Let(_, _)
        | Stmt::Assign(_, _)
        | Stmt::Put(_, _, _)
        | Stmt::Call(_)
        | Stmt::Fork(_, _)
        | Stmt::Each(_, _, _, _) => 0,
    }
}

/// How many names a statement declares for the rest of its block.
fn let_count(statement: &Stmt) -> u32
    ensures value { result ≡ length (lets_of (statement_of statement.now)) }
    ensures within { 2 * result ≤ own_count (statement_of statement.now) }
{
    match statement {
        Stmt::Let(_, _) => 1,
        Stmt::Assign(_, _)
        | Stmt::Put(_, _, _)
        | Stmt::If(_, _, _)
        | Stmt::While(_, _)
        | Stmt::Call(_)
        | Stmt::Fork(_, _)
        | Stmt::Split(_, _, _, _, _, _)
        | Stmt::Each(_, _, _, _) => 0,
    }
}

/// The names of a block that are in force at one point, at most.
#[cycle(names)]
pub fn most_in_force(block: &[Stmt]) -> u32
    requires counts { own_count_in (block_of block.now) ≤ count_limit }
    ensures value { result ≡ most_in_force (block_of block.now) }
    ensures within { 2 * result ≤ own_count_in (block_of block.now) }
{
    let mut most = 0;
    let mut lets = 0;
    for statement in block {
        let here: u32 = lets + most_within(statement);
        most = here.max(most);
        lets += let_count(statement);
    }
    lets.max(most)
}

/// Whether a statement assigns to a local, itself or in its blocks.
#[cycle(assigns)]
fn assigns(statement: &Stmt) -> bool
    ensures { result ≡ assigns (statement_of statement.now) }
{
    match statement {
        Stmt::Assign(_, _) => true,
        Stmt::If(_, block, other) => {
            if has_assignment(block) {
                return true;
            }
            has_assignment(other)
        }
        Stmt::While(_, block) => has_assignment(block),
        Stmt::Split(_, _, _, _, _, block) => has_assignment(block),
        Stmt::Let(_, _)
        | Stmt::Put(_, _, _)
        | Stmt::Call(_)
        | Stmt::Fork(_, _)
        | Stmt::Each(_, _, _, _) => false,
    }
}

/// Whether a block assigns to a local.
#[cycle(assigns)]
fn has_assignment(block: &[Stmt]) -> bool
    ensures { result ≡ has_assignment (block_of block.now) }
{
    for statement in block {
        if assigns(statement) {
            return true;
        }
    }
    false
}

/// The slots after all names.
pub fn spare_slots(block: &[Stmt]) -> u32
    ensures value { result ≡ spare_slots (block_of block.now) }
    ensures within { result ≤ 2 }
{
    if has_put(block) {
        return 2;
    }
    if has_assignment(block) {
        return 1;
    }
    0
}

/// The slots of a procedure's names.
pub fn named_slots(procedure: &Proc) -> u32
    requires few { length procedure.now.parameters ≤ 12 }
    requires counts { own_count_in (block_of procedure.now.body.items) ≤ count_limit }
    ensures value { result ≡ named_slots (procedure_of procedure.now) }
    ensures within { 2 * result ≤ 24 + own_count_in (block_of procedure.now.body.items) }
{
    let parameters = procedure.parameters.as_slice().len() as u32;
    parameters + most_in_force(&procedure.body)
}

/// The slots of the frames of a procedure.
pub fn procedure_slots(procedure: &Proc) -> u32
    requires few { length procedure.now.parameters ≤ 12 }
    requires counts { own_count_in (block_of procedure.now.body.items) ≤ count_limit }
    ensures value { result ≡ procedure_slots (procedure_of procedure.now) }
    ensures within { 2 * result ≤ 28 + own_count_in (block_of procedure.now.body.items) }
{
    named_slots(procedure) + spare_slots(&procedure.body)
}

/// The slots of the names of a hidden procedure with so many names of outside.
pub fn hidden_named_slots(names: u32, block: &[Stmt]) -> u32
    requires few { names ≤ count_limit }
    requires counts { own_count_in (block_of block.now) ≤ count_limit }
    ensures value { result ≡ hidden_named_slots names (block_of block.now) }
    ensures within { result ≤ 2 * count_limit }
{
    names + 2 + most_in_force(block).max(2)
}

/// The slots of the frames of a hidden procedure with so many names of outside.
pub fn hidden_slots(names: u32, block: &[Stmt]) -> u32
    requires few { names ≤ count_limit }
    requires counts { own_count_in (block_of block.now) ≤ count_limit }
    ensures value { result ≡ hidden_slots names (block_of block.now) }
    ensures within { result ≤ 3 * count_limit }
{
    hidden_named_slots(names, block) + spare_slots(block)
}
