//! What is open around what comes next in a run.
ghost use Rattle.std.specs.Prelude.{◌≡◌};
ghost use Rattle.ppm_tree.specs.Tree.{procedure_of, statement_of, block_of};
ghost use Rattle.ppm_standing.specs.Shown.{rest_of};
ghost use Rattle.ppm_standing.specs.Standing.{block_cost, give_cost as cost_of_give, rest_cost};
ghost use Rattle.ppm_standing.specs.Standing.{statement_cost as cost_of_statement};

use ppm_by_name::{Frame, Region};
use ppm_tree::{Expr, Named, Proc, Side, Stmt};

/// The turns of a statement as it begins.
fn statement_cost(statement: &Stmt) -> u64
    ensures { result ≡ cost_of_statement (statement_of statement.now) }
{
    match statement {
        Stmt::Each(_, _, _, _) => 9,
        Stmt::Let(_, _) => 1,
        Stmt::Assign(_, _) => 1,
        Stmt::Put(_, _, _) => 1,
        Stmt::If(_, _, _) => 1,
        Stmt::While(_, _) => 1,
        Stmt::Call(_) => 1,
        Stmt::Fork(_, _) => 1,
        Stmt::Split(_, _, _, _, _, _) => 1,
    }
}

/// The turns of the first statement, as it begins; 0 where there is none.
pub(crate) fn first_cost(block: &[Stmt]) -> u64
    ensures { result ≡ block_cost (block_of block.now) }
{
    match block.split_first() {
        None => 0,
        Some((first, _)) => statement_cost(first),
    }
}

/// The turn of what a procedure gives, if it gives anything.
pub(crate) fn give_cost(procedure: &Proc) -> u64
    ensures { result ≡ cost_of_give (procedure_of procedure.now).give }
{
    match &procedure.give {
        None => 0,
        Some(_) => 1,
    }
}

/// A procedure that waits for one that it called: its frame, what comes after the call, and the
/// call.
#[derive(Drop)]
pub(crate) struct Caller<'a> {
    pub(crate) procedure: &'a Proc,
    pub(crate) frame: Frame,
    pub(crate) rest: &'a [Stmt],
    pub(crate) side: &'a Side,
}

/// The blocks of an `each` that are still to come.
#[derive(Drop)]
pub(crate) struct Sweep<'a> {
    pub(crate) index: &'a Named,
    pub(crate) part: &'a Named,
    pub(crate) block: &'a [Stmt],
    pub(crate) region: Region,
    /// The index of the next block.
    pub(crate) next: usize,
    /// The frame at the start, which each block has.
    pub(crate) frame: Frame,
    /// What follows.
    pub(crate) rest: &'a [Stmt],
}

/// What comes after a block.
#[derive(Drop)]
pub(crate) enum Rest<'a> {
    /// More statements of the same frame.
    Block(&'a [Stmt]),
    /// The test of a loop, with its block.
    Loop(&'a Expr, &'a [Stmt]),
    /// The end of a split's block: the frame as it was, and what follows.
    Parts(Frame, &'a [Stmt]),
    Sweeps(Sweep<'a>),
    Call(Caller<'a>),
    /// The right branch of a fork: who waits for the left one, the right call and its frame.
    Left(Caller<'a>, &'a Side, Frame),
    /// The end of a fork: who waits, the right call, and what the left one gave.
    Right(Caller<'a>, &'a Side, i64),
}

/// The turns of what goes on after a block, in a procedure.
pub(crate) fn leave_cost(rest: &Rest<'_>, procedure: &Proc) -> u64
    ensures { result ≡ rest_cost (rest_of rest.now) (procedure_of procedure.now).give }
{
    match rest {
        Rest::Block(_) => 0,
        Rest::Loop(_, _) => 0,
        Rest::Parts(_, _) => 0,
        Rest::Sweeps(sweep) => {
            if sweep.next < sweep.region.length() {
                8
            } else {
                0
            }
        }
        Rest::Call(_) => give_cost(procedure),
        Rest::Left(_, _, _) => give_cost(procedure),
        Rest::Right(_, _, _) => give_cost(procedure),
    }
}
