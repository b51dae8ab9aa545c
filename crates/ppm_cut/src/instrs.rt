//! Instructions whose registers are given by their numbers.
ghost use Rattle.std.specs.Prelude.{◌≡◌, ◌∷◌, OnOk};
ghost use Rattle.ppm_code.specs.declared.act.End.TheVariants as ends;
ghost use Rattle.ppm_code.specs.declared.instr.Instr.TheVariants as instr;
ghost use Rattle.ppm_cut_code.specs.Layout.{register as register_of};
ghost use Rattle.ppm_cut.specs.Growth.{Grows};

use crate::register::register;
use ppm_code::{End, Instr};
use ppm_words::NoMemory;

/// Appends an instruction.
pub fn push(body: &mut Vec<Instr>, instr: Instr) -> Result<(), NoMemory>
    ensures { OnOk result (Grows (λ rest. instr ∷ rest) body.old.items body.new.items) }
{
    body.push(instr)?;
    Ok(())
}

/// Appends a number in a register.
pub fn push_const(body: &mut Vec<Instr>, to_number: u32, value: i64) -> Result<(), NoMemory>
    ensures { OnOk result (Grows (λ rest. instr.Const (register_of to_number) value
        ∷ rest) body.old.items body.new.items) }
{
    let to = register(to_number);
    push(body, Instr::Const { to, value })
}

/// Appends a load of a slot into a register.
pub fn push_load(body: &mut Vec<Instr>, to_number: u32, slot: u32) -> Result<(), NoMemory>
    ensures { OnOk result (Grows (λ rest. instr.LoadSlot (register_of to_number) slot
        ∷ rest) body.old.items body.new.items) }
{
    let to = register(to_number);
    push(body, Instr::LoadSlot { to, slot })
}

/// Appends a store of a register into a slot.
pub fn push_store(body: &mut Vec<Instr>, slot: u32, from_number: u32) -> Result<(), NoMemory>
    ensures { OnOk result (Grows (λ rest. instr.StoreCur slot (register_of from_number)
        ∷ rest) body.old.items body.new.items) }
{
    let from = register(from_number);
    push(body, Instr::StoreCur { slot, from })
}

/// Appends a store of a register into a word of the new block.
pub fn push_store_new(body: &mut Vec<Instr>, offset: u32, from_number: u32) -> Result<(), NoMemory>
    ensures { OnOk result (Grows (λ rest. instr.StoreNew offset (register_of from_number)
        ∷ rest) body.old.items body.new.items) }
{
    let from = register(from_number);
    push(body, Instr::StoreNew { offset, from })
}

/// Appends the length of a region.
pub fn push_len(body: &mut Vec<Instr>, to_number: u32, region_number: u32) -> Result<(), NoMemory>
    ensures { OnOk result (Grows (λ rest. instr.Len (register_of to_number) (register_of region_number) ∷ rest) body.old.items body.new.items) }
{
    let to = register(to_number);
    let region = register(region_number);
    push(body, Instr::Len { to, region })
}

/// Appends the first part of a region.
pub fn push_cut_left(
    body: &mut Vec<Instr>,
    to_number: u32,
    region_number: u32,
    at_number: u32,
    line: u32,
) -> Result<(), NoMemory>
    ensures { OnOk result (Grows
        (λ rest. instr.CutLeft (register_of to_number) (register_of region_number) (register_of at_number) line ∷ rest)
        body.old.items body.new.items) }
{
    let to = register(to_number);
    let region = register(region_number);
    let at = register(at_number);
    push(
        body,
        Instr::CutLeft {
            to,
            region,
            at,
            line,
        },
    )
}

/// Appends the second part of a region.
pub fn push_cut_right(
    body: &mut Vec<Instr>,
    to_number: u32,
    region_number: u32,
    at_number: u32,
    line: u32,
) -> Result<(), NoMemory>
    ensures { OnOk result (Grows
        (λ rest. instr.CutRight (register_of to_number) (register_of region_number) (register_of at_number) line ∷ rest)
        body.old.items body.new.items) }
{
    let to = register(to_number);
    let region = register(region_number);
    let at = register(at_number);
    push(
        body,
        Instr::CutRight {
            to,
            region,
            at,
            line,
        },
    )
}

/// Appends a sum.
pub fn push_sum(
    body: &mut Vec<Instr>,
    to_number: u32,
    left_number: u32,
    right_number: u32,
    line: u32,
) -> Result<(), NoMemory>
    ensures { OnOk result (Grows
        (λ rest. instr.Add (register_of to_number) (register_of left_number) (register_of right_number) line ∷ rest)
        body.old.items body.new.items) }
{
    let to = register(to_number);
    let left = register(left_number);
    let right = register(right_number);
    push(
        body,
        Instr::Add {
            to,
            left,
            right,
            line,
        },
    )
}

/// Appends a quotient.
pub fn push_quotient(
    body: &mut Vec<Instr>,
    to_number: u32,
    left_number: u32,
    right_number: u32,
    line: u32,
) -> Result<(), NoMemory>
    ensures { OnOk result (Grows
        (λ rest. instr.Div (register_of to_number) (register_of left_number) (register_of right_number) line ∷ rest)
        body.old.items body.new.items) }
{
    let to = register(to_number);
    let left = register(left_number);
    let right = register(right_number);
    push(
        body,
        Instr::Div {
            to,
            left,
            right,
            line,
        },
    )
}

/// Appends a comparison.
pub fn push_less(
    body: &mut Vec<Instr>,
    to_number: u32,
    left_number: u32,
    right_number: u32,
) -> Result<(), NoMemory>
    ensures { OnOk result (Grows
        (λ rest. instr.Less (register_of to_number) (register_of left_number) (register_of right_number) ∷ rest)
        body.old.items body.new.items) }
{
    let to = register(to_number);
    let left = register(left_number);
    let right = register(right_number);
    push(body, Instr::Less { to, left, right })
}

/// Appends a branch for 0.
pub fn push_branch_zero(
    body: &mut Vec<Instr>,
    tested_number: u32,
    target: u32,
) -> Result<(), NoMemory>
    ensures { OnOk result (Grows (λ rest. instr.BranchZero (register_of tested_number) target
        ∷ rest) body.old.items body.new.items) }
{
    let tested = register(tested_number);
    push(body, Instr::BranchZero { tested, target })
}

/// Appends an assignment to an element.
pub fn push_put(
    body: &mut Vec<Instr>,
    region_number: u32,
    index_number: u32,
    from_number: u32,
    line: u32,
) -> Result<(), NoMemory>
    ensures { OnOk result (Grows
        (λ rest. instr.Put (register_of region_number) (register_of index_number) (register_of from_number) line ∷ rest)
        body.old.items body.new.items) }
{
    let region = register(region_number);
    let index = register(index_number);
    let from = register(from_number);
    push(
        body,
        Instr::Put {
            region,
            index,
            from,
            line,
        },
    )
}

/// Appends what the frame gives.
pub fn push_give(body: &mut Vec<Instr>, from_number: u32) -> Result<(), NoMemory>
    ensures { OnOk result (Grows (λ rest. instr.Give (register_of from_number)
        ∷ rest) body.old.items body.new.items) }
{
    let from = register(from_number);
    push(body, Instr::Give { from })
}

/// Appends the words of the new block.
pub fn push_room(body: &mut Vec<Instr>, words: u32) -> Result<(), NoMemory>
    ensures { OnOk result (Grows (λ rest. instr.Room words ∷ rest) body.old.items body.new.items) }
{
    push(body, Instr::Room { words })
}

/// Appends the end of a capsule that goes on with another.
pub fn push_onward(body: &mut Vec<Instr>, next: u32) -> Result<(), NoMemory>
    ensures { OnOk result (Grows (λ rest. instr.Ends (ends.Next next)
        ∷ rest) body.old.items body.new.items) }
{
    push(body, Instr::Ends(End::Next { capsule: next }))
}

/// Appends the end of a frame.
pub fn push_finish(body: &mut Vec<Instr>) -> Result<(), NoMemory>
    ensures { OnOk result (Grows (λ rest. instr.Ends ends.Finish
        ∷ rest) body.old.items body.new.items) }
{
    push(body, Instr::Ends(End::Finish))
}
