//! What passes a bound of the compiler first.
ghost use Rattle.std.specs.Prelude.{◌≡◌, ◌↔◌, None, IfOk};
ghost use Rattle.ppm_tree.specs.Tree.{statement_of, block_of, procedure_of};
ghost use Rattle.ppm_cut_bounds.specs.Bounds.{Keeps, limit_of, own_count, hidden_count};
ghost use Rattle.ppm_excess.specs.Excess.{bound_of, each_past as each_past_bound, first_of};
ghost use Rattle.ppm_excess.specs.Excess.{whole_past as whole_past_bound, past_at, excess_of};
ghost use Rattle.ppm_excess.specs.Excess.{first_within as first_within_bound};
ghost use Rattle.ppm_excess.specs.Excess.{first_in as first_in_bound};

use crate::outside::outside_count;
use crate::slots::{hidden_slots, slots_of};
use ppm_tree::{Named, Proc, Stmt};
use ppm_words::NoMemory;
use std::alloc::Global;

/// What is counted in a procedure.
#[derive(Clone, Copy, Debug, PartialEq, Eq)]
pub enum Counted {
    /// Its slots, and those of the hidden procedure of each `each`: 24 at most.
    Slots,
    /// The names of outside that the block of each `each` names: 10 at most.
    Outside,
}

/// What passes a bound, with the count that does.
#[derive(Clone, Copy, Debug, PartialEq, Eq)]
pub enum Excess {
    /// The procedure itself.
    Whole(usize),
    /// The `each` whose index stands in this line, from 1.
    Each(u32, usize),
}

/// The greatest count that keeps the bound.
pub fn limit(counted: Counted) -> usize
    ensures { result ≡ limit_of (bound_of counted) }
{
    match counted {
        Counted::Slots => 24,
        Counted::Outside => 10,
    }
}

/// What is counted in the hidden procedure for a block with so many names of outside.
fn hidden_count(counted: Counted, caught: usize, block: &[Stmt]) -> Result<usize, NoMemory>
    ensures { IfOk result (λ n. n ≡ hidden_count (bound_of counted) caught (block_of block.now)) }
{
    match counted {
        Counted::Slots => hidden_slots(caught, block),
        Counted::Outside => Ok(caught),
    }
}

/// What is counted in a procedure itself.
fn own_count(counted: Counted, procedure: &Proc) -> Result<usize, NoMemory>
    ensures { IfOk result (λ n. n ≡ own_count (bound_of counted) (procedure_of procedure.now)) }
{
    match counted {
        Counted::Slots => slots_of(procedure),
        Counted::Outside => Ok(0),
    }
}

/// The `each` whose index stands in this line, if its count passes the bound.
fn each_past(counted: Counted, line: u32, count: usize) -> Option<Excess>
    ensures { result ≡ each_past_bound (bound_of counted) line count }
{
    if count > limit(counted) {
        return Some(Excess::Each(line, count));
    }
    None
}

/// The procedure itself, if its count passes the bound.
fn whole_past(counted: Counted, count: usize) -> Option<Excess>
    ensures { result ≡ whole_past_bound (bound_of counted) count }
{
    if count > limit(counted) {
        return Some(Excess::Whole(count));
    }
    None
}

/// The first of two, each of which may be missing.
fn earlier(first: Option<Excess>, later: Option<Excess>) -> Option<Excess>
    ensures { result ≡ first_of first later }
{
    match first {
        Some(excess) => Some(excess),
        None => later,
    }
}

/// The `each` with this index, part and block, if it passes the bound.
fn at_each(
    alloc: Global,
    counted: Counted,
    index: &Named,
    part: &Named,
    block: &[Stmt],
) -> Result<Option<Excess>, NoMemory>
    ensures { IfOk result (λ e. e
        ≡ past_at (bound_of counted) index.now part.now (block_of block.now)) }
{
    let caught = outside_count(alloc, index, part, block)?;
    let count = hidden_count(counted, caught, block)?;
    Ok(each_past(counted, index.line, count))
}

/// The first `each` of a statement that passes the bound: itself, or one in its blocks.
#[cycle(first)]
fn first_within(
    alloc: Global,
    counted: Counted,
    statement: &Stmt,
) -> Result<Option<Excess>, NoMemory>
    ensures { IfOk result (λ e. e
        ≡ first_within_bound (bound_of counted) (statement_of statement.now)) }
{
    match statement {
        Stmt::If(_, block, other) => {
            let holds = first_in(alloc, counted, block)?;
            let fails = first_in(alloc, counted, other)?;
            Ok(earlier(holds, fails))
        }
        Stmt::While(_, block) => first_in(alloc, counted, block),
        Stmt::Split(_, _, _, _, _, block) => first_in(alloc, counted, block),
        Stmt::Each(index, part, _, block) => {
            let own = at_each(alloc, counted, index, part, block)?;
            let inner = first_in(alloc, counted, block)?;
            Ok(earlier(own, inner))
        }
        Stmt::Let(_, _)
        | Stmt::Assign(_, _)
        | Stmt::Put(_, _, _)
        | Stmt::Call(_)
        | Stmt::Fork(_, _) => Ok(None),
    }
}

/// The first `each` of a block that passes the bound.
#[cycle(first)]
fn first_in(alloc: Global, counted: Counted, block: &[Stmt]) -> Result<Option<Excess>, NoMemory>
    ensures { IfOk result (λ e. e ≡ first_in_bound (bound_of counted) (block_of block.now)) }
{
    for statement in block {
        let here = first_within(alloc, counted, statement)?;
        if here.is_some() {
            return Ok(here);
        }
    }
    Ok(None)
}

/// What passes a bound first in a procedure.
fn first_past(alloc: Global, counted: Counted, procedure: &Proc) -> Result<Option<Excess>, NoMemory>
    ensures { IfOk result (λ e. e ≡ excess_of (bound_of counted) (procedure_of procedure.now)) }
{
    let whole = whole_past(counted, own_count(counted, procedure)?);
    if whole.is_some() {
        return Ok(whole);
    }
    first_in(alloc, counted, &procedure.body)
}

/// What passes a bound first in a procedure: itself, or the first `each` in the order of the text;
/// `None` where the procedure keeps the bound. `Err` only where memory is refused.
pub fn excess_in(
    alloc: Global,
    counted: Counted,
    procedure: &Proc,
) -> Result<Option<Excess>, NoMemory>
    ensures value { IfOk result (λ e. e
        ≡ excess_of (bound_of counted) (procedure_of procedure.now)) }
    ensures kept { IfOk result (λ e. (e ≡ None)
        ↔ Keeps (bound_of counted) (procedure_of procedure.now)) }
{
    let found = first_past(alloc, counted, procedure)?;
    Ok(found)
}
