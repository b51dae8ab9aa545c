//! The capsules of an `each`, and of its hidden procedure in front of its block.
ghost use Rattle.std.specs.Prelude.{◌≡◌, ◌≤◌, ◌+◌, ◌*◌, ◌∷◌, [], length, IfOk, OnOk};
ghost use Rattle.ppm_code.specs.declared.act.End.TheVariants as ends;
ghost use Rattle.ppm_code.specs.declared.instr.Instr.TheVariants as instr;
ghost use Rattle.ppm_tree.specs.Tree.{block_of};
ghost use Rattle.ppm_cut_code.specs.Statements.{loads_code, each_code, entry_code, halving_code};
ghost use Rattle.ppm_cut.specs.Counts.{count_limit, own_count_in};
ghost use Rattle.ppm_cut.specs.Growth.{Grows, halves_code, half_code};

use crate::arguments::{push_loads, push_stores};
use crate::calling::{fork_words, frame_words};
use crate::counts::Numbers;
use crate::instrs::{
    push, push_branch_zero, push_const, push_cut_left, push_cut_right, push_finish, push_len,
    push_less, push_load, push_onward, push_quotient, push_room, push_store_new, push_sum,
};
use crate::layout::Layout;
use crate::slots::hidden_slots;
use ppm_code::{End, Instr};
use ppm_tree::{Named, Stmt};
use ppm_words::NoMemory;
use std::alloc::Global;

/// Appends loads of the names of outside, each from its slot.
fn push_name_loads(
    body: &mut Vec<Instr>,
    layout: &Layout<'_>,
    names: &Layout<'_>,
    number: u32,
) -> Result<(), NoMemory>
    requires names { length layout.now ≤ count_limit }
    requires registers { number + length names.now ≤ 16 * count_limit }
    ensures { OnOk result (Grows (loads_code layout.now names.now number) body.old.items body.new.items) }
{
    let mut to = number;
    for mention in names.as_slice() {
        push_load(body, to, layout.slot(mention.name()))?;
        to += 1;
    }
    Ok(())
}

/// The capsule of an `each` that has these numbers: its hidden procedure is called.
pub fn each_capsule(
    alloc: Global,
    layout: &Layout<'_>,
    region: &Named,
    block: &[Stmt],
    numbers: Numbers,
) -> Result<Vec<Instr>, NoMemory>
    requires names { length layout.now ≤ count_limit }
    requires counts { own_count_in (block_of block.now) ≤ count_limit }
    requires capsules { numbers.capsule ≤ count_limit }
    ensures { IfOk result (λ body. body.items
        ≡ each_code layout.now region.now (block_of block.now) numbers.hidden (numbers.capsule + 1)) }
{
    let mut names = Layout::new(alloc);
    names.push_caught(layout, block)?;
    let count = names.len();
    let slots = hidden_slots(count, block);
    let mut body = Vec::new(alloc);
    push_room(&mut body, frame_words(slots))?;
    push_load(&mut body, 0, layout.slot(&region.name))?;
    push_const(&mut body, 1, 0)?;
    push_name_loads(&mut body, layout, &names, 2)?;
    push_stores(&mut body, 6, 0, count + 2)?;
    push(
        &mut body,
        Instr::Ends(End::Call {
            procedure: numbers.hidden,
            capsule: numbers.capsule + 1,
            to: None,
        }),
    )?;
    Ok(body)
}

/// Where the hidden procedure is entered.
pub fn entry_capsule(alloc: Global, entry: u32) -> Result<Vec<Instr>, NoMemory>
    requires { entry ≤ 2 * count_limit }
    ensures { IfOk result (λ body. body.items ≡ entry_code entry) }
{
    let mut body = Vec::new(alloc);
    push_load(&mut body, 0, 0)?;
    push_len(&mut body, 0, 0)?;
    push_const(&mut body, 1, 1)?;
    push_less(&mut body, 2, 1, 0)?;
    push_branch_zero(&mut body, 2, 6)?;
    push_onward(&mut body, entry + 1)?;
    push_branch_zero(&mut body, 0, 8)?;
    push_onward(&mut body, entry + 3)?;
    push_finish(&mut body)?;
    Ok(body)
}

/// Appends both halves of the part of a hidden procedure, and its first indices.
fn push_halves(body: &mut Vec<Instr>, line: u32) -> Result<(), NoMemory>
    ensures { OnOk result (Grows (halves_code line) body.old.items body.new.items) }
{
    push_load(body, 0, 0)?;
    push_len(body, 1, 0)?;
    push_const(body, 2, 2)?;
    push_quotient(body, 1, 1, 2, line)?;
    push_cut_left(body, 2, 0, 1, line)?;
    push_cut_right(body, 3, 0, 1, line)?;
    push_load(body, 4, 1)?;
    push_sum(body, 5, 4, 1, line)
}

/// Appends the stores of a half of a hidden procedure into its frame: its part, its first index,
/// and the names of outside.
fn push_half(
    body: &mut Vec<Instr>,
    offset: u32,
    part: u32,
    index: u32,
    names: u32,
) -> Result<(), NoMemory>
    requires words { offset + names ≤ 15 * count_limit }
    ensures { OnOk result (Grows (half_code offset part index names) body.old.items body.new.items) }
{
    push_store_new(body, offset, part)?;
    push_store_new(body, offset + 1, index)?;
    push_stores(body, offset + 2, 6, names)
}

/// Where the hidden procedure with these numbers, its own and that of its first capsule, goes on by
/// halves.
pub fn halving_capsule(
    alloc: Global,
    numbers: Numbers,
    slots: u32,
    names: u32,
    line: u32,
) -> Result<Vec<Instr>, NoMemory>
    requires entry { numbers.capsule ≤ 2 * count_limit }
    requires slots { slots ≤ 4 * count_limit }
    requires names { names ≤ 2 * count_limit }
    ensures { IfOk result (λ body. body.items ≡ halving_code numbers.capsule numbers.hidden slots names line) }
{
    let mut body = Vec::new(alloc);
    push_room(&mut body, fork_words(slots, slots))?;
    push_halves(&mut body, line)?;
    push_loads(&mut body, 2, 6, names)?;
    push_half(&mut body, 11, 2, 4, names)?;
    push_half(&mut body, frame_words(slots) + 11, 3, 5, names)?;
    push(
        &mut body,
        Instr::Ends(End::Fork {
            left: numbers.hidden,
            right: numbers.hidden,
            capsule: numbers.capsule + 2,
            left_to: None,
            right_to: None,
        }),
    )?;
    Ok(body)
}

/// Where both halves are over.
pub fn finish_capsule(alloc: Global) -> Result<Vec<Instr>, NoMemory>
    ensures { IfOk result (λ body. body.items ≡ instr.Ends ends.Finish ∷ []) }
{
    let mut body = Vec::new(alloc);
    push_finish(&mut body)?;
    Ok(body)
}
