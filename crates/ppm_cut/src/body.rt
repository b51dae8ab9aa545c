//! The capsules of statements and blocks.
ghost use Rattle.std.specs.Prelude.{◌≡◌, ◌≤◌, ◌+◌, [], ◌∷◌, length, map, OnOk};
ghost use Rattle.ppm_tree.specs.Tree.{statement_of, block_of, procedure_of};
ghost use Rattle.ppm_cut_code.specs.Statements.{last_code, statement_code, block_code};
ghost use Rattle.ppm_cut.specs.Counts.{count_limit, own_count, own_count_in};
ghost use Rattle.ppm_cut.specs.Counts.{hidden_count, hidden_count_in};
ghost use Rattle.ppm_cut.specs.Counts.{IsShort, IsShortBlock};
ghost use Rattle.ppm_cut.specs.Growth.{Adds, last_of, IsShortLast};

use crate::calling::{call_capsule, fork_capsule};
use crate::counts::{Numbers, end_of, hidden_behind_block};
use crate::each::each_capsule;
use crate::layout::Layout;
use crate::maker::Maker;
use crate::simple::{
    element_capsule, give_capsule, move_capsule, onward, put_capsule, split_capsule, store_capsule,
    test_capsule,
};
use ppm_code::{Capsule, Instr};
use ppm_tree::{Give, Stmt};
use ppm_words::{Items, NoMemory};

/// How a block goes on after its last statement.
#[derive(Clone, Copy)]
pub enum Last<'a> {
    /// With a capsule.
    OnTo(u32),
    /// The frame is over, with what its body gives.
    Gives(&'a Option<Give>),
}

/// Appends a capsule.
pub fn push_capsule(
    capsules: &mut Vec<Capsule>,
    procedure: u32,
    body: Vec<Instr>,
) -> Result<(), NoMemory>
    ensures { OnOk result (Adds procedure (body.items ∷ []) capsules.old.items capsules.new.items) }
{
    capsules.push(Capsule {
        procedure,
        instrs: Items::from_vec(body),
    })?;
    Ok(())
}

/// Appends two capsules.
fn push_two(
    capsules: &mut Vec<Capsule>,
    procedure: u32,
    first: Vec<Instr>,
    second: Vec<Instr>,
) -> Result<(), NoMemory>
    ensures { OnOk result (Adds procedure (first.items ∷ second.items ∷ [])
        capsules.old.items capsules.new.items) }
{
    push_capsule(capsules, procedure, first)?;
    push_capsule(capsules, procedure, second)
}

/// Appends the capsules of a statement that begins with these numbers.
#[cycle(body)]
fn push_statement<'a>(
    maker: &Maker<'_>,
    capsules: &mut Vec<Capsule>,
    layout: &mut Layout<'a>,
    numbers: Numbers,
    statement: &'a Stmt,
) -> Result<(), NoMemory>
    requires names { length layout.old + (own_count (statement_of statement.now) + hidden_count (statement_of statement.now)) ≤ count_limit }
    requires capsules { numbers.capsule + own_count (statement_of statement.now) ≤ count_limit }
    requires hidden { numbers.hidden + hidden_count (statement_of statement.now) ≤ count_limit }
    requires short { IsShort (statement_of statement.now) }
    ensures code { OnOk result (Adds maker.now.home.procedure
        (statement_code (map procedure_of maker.now.callees.now) maker.now.home.spare layout.old numbers.capsule numbers.hidden (statement_of statement.now))
        capsules.old.items capsules.new.items) }
    ensures layout { OnOk result (layout.new ≡ layout.old) }
{
    let alloc = maker.alloc;
    let procedure = maker.home.procedure;
    let at = numbers.capsule;
    match statement {
        Stmt::Let(_, value) => {
            let body = store_capsule(alloc, layout, layout.len(), value, at + 1)?;
            push_capsule(capsules, procedure, body)
        }
        Stmt::Assign(local, value) => {
            let first = store_capsule(alloc, layout, maker.home.spare, value, at + 1)?;
            let second = move_capsule(maker, layout, local, at + 2)?;
            push_two(capsules, procedure, first, second)
        }
        Stmt::Put(region, index, value) => {
            let first = element_capsule(maker, layout, index, value, at + 1)?;
            let second = put_capsule(maker, layout, region, at + 2)?;
            push_two(capsules, procedure, first, second)
        }
        Stmt::If(test, block, other) => {
            let first = end_of(block, at + 1) + 1;
            let next = end_of(other, first) + 1;
            let body = test_capsule(alloc, layout, test, at + 1, first)?;
            push_capsule(capsules, procedure, body)?;
            let inside = Numbers {
                capsule: at + 1,
                hidden: numbers.hidden,
            };
            push_block(maker, capsules, layout, inside, Last::OnTo(next), block)?;
            let second = hidden_behind_block(block, numbers.hidden);
            let others = Numbers {
                capsule: first,
                hidden: second,
            };
            push_block(maker, capsules, layout, others, Last::OnTo(next), other)
        }
        Stmt::While(test, block) => {
            let next = end_of(block, at + 1) + 1;
            let body = test_capsule(alloc, layout, test, at + 1, next)?;
            push_capsule(capsules, procedure, body)?;
            let inside = Numbers {
                capsule: at + 1,
                hidden: numbers.hidden,
            };
            push_block(maker, capsules, layout, inside, Last::OnTo(at), block)
        }
        Stmt::Call(side) => {
            let body = call_capsule(maker, layout, side, at + 1)?;
            push_capsule(capsules, procedure, body)
        }
        Stmt::Fork(left, right) => {
            let body = fork_capsule(maker, layout, left, right, at + 1)?;
            push_capsule(capsules, procedure, body)
        }
        Stmt::Split(line, region, place, first, second, block) => {
            let next = end_of(block, at + 1) + 1;
            let body = split_capsule(alloc, layout, *line, region, place, at + 1)?;
            push_capsule(capsules, procedure, body)?;
            let count = layout.len();
            layout.push(&first.name)?;
            layout.push(&second.name)?;
            let inside = Numbers {
                capsule: at + 1,
                hidden: numbers.hidden,
            };
            push_block(maker, capsules, layout, inside, Last::OnTo(next), block)?;
            layout.truncate(count);
            Ok(())
        }
        Stmt::Each(_, _, region, block) => {
            let body = each_capsule(alloc, layout, region, block, numbers)?;
            push_capsule(capsules, procedure, body)
        }
    }
}

/// Appends the capsule with which a block ends.
fn push_last(
    maker: &Maker<'_>,
    capsules: &mut Vec<Capsule>,
    layout: &Layout<'_>,
    last: Last<'_>,
) -> Result<(), NoMemory>
    requires names { length layout.now ≤ count_limit }
    requires short { IsShortLast (last_of last) }
    ensures { OnOk result (Adds maker.now.home.procedure (last_code layout.now (last_of last.entry)
        ∷ []) capsules.old.items capsules.new.items) }
{
    match last {
        Last::OnTo(next) => {
            let body = onward(maker.alloc, next)?;
            push_capsule(capsules, maker.home.procedure, body)
        }
        Last::Gives(give) => {
            let body = give_capsule(maker.alloc, layout, give)?;
            push_capsule(capsules, maker.home.procedure, body)
        }
    }
}

/// Appends the capsules of a block that begins with these numbers; the last is how it goes on.
#[cycle(body)]
pub fn push_block<'a>(
    maker: &Maker<'_>,
    capsules: &mut Vec<Capsule>,
    layout: &mut Layout<'a>,
    numbers: Numbers,
    last: Last<'_>,
    block: &'a [Stmt],
) -> Result<(), NoMemory>
    requires names { length layout.old + (own_count_in (block_of block.now) + hidden_count_in (block_of block.now)) ≤ count_limit }
    requires capsules { numbers.capsule + own_count_in (block_of block.now) ≤ count_limit }
    requires hidden { numbers.hidden + hidden_count_in (block_of block.now) ≤ count_limit }
    requires short { IsShortBlock (block_of block.now) }
    requires short_last { IsShortLast (last_of last) }
    ensures code { OnOk result (Adds maker.now.home.procedure
        (block_code (map procedure_of maker.now.callees.now) maker.now.home.spare layout.old numbers.capsule numbers.hidden (last_of last.entry) (block_of block.now))
        capsules.old.items capsules.new.items) }
    ensures layout { OnOk result (layout.new ≡ layout.old) }
{
    let count = layout.len();
    let mut next = numbers;
    for statement in block {
        push_statement(maker, capsules, layout, next, statement)?;
        layout.push_lets(statement)?;
        next = next.behind(statement);
    }
    push_last(maker, capsules, layout, last)?;
    layout.truncate(count);
    Ok(())
}
