//! Up to which register the capsules of a code read, so that few are set to 0 where few may be
//! read.
ghost use Rattle.std.specs.Prelude.{◌≡◌, IfOk};
ghost use Rattle.ppm_widths.specs.Widths.{AreWidths, instr_width, up_to, up_to_both, width_of};

use ppm_code::{Code, Instr, Register};
use ppm_words::{Items, NoMemory};
use std::alloc::Global;

/// How many registers there are up to this one, itself counted.
fn up_to(register: Register) -> u8
    ensures { result ≡ up_to register }
{
    register.index + 1
}

/// How many there are up to the later of two.
fn up_to_both(one: Register, other: Register) -> u8
    ensures { result ≡ up_to_both one other }
{
    up_to(one).max(up_to(other))
}

/// How many there are up to the last one that an instruction reads.
fn instr_width(instr: &Instr) -> u8
    ensures { result ≡ instr_width instr.now }
{
    match *instr {
        Instr::Const { .. } | Instr::LoadSlot { .. } | Instr::Room { .. } | Instr::Ends(_) => 0,
        Instr::Move { from, .. }
        | Instr::StoreCur { from, .. }
        | Instr::Give { from }
        | Instr::StoreNew { from, .. } => up_to(from),
        Instr::Len { region, .. } => up_to(region),
        Instr::BranchZero { tested, .. } | Instr::BranchNonZero { tested, .. } => up_to(tested),
        Instr::Add { left, right, .. }
        | Instr::Sub { left, right, .. }
        | Instr::Mul { left, right, .. }
        | Instr::Div { left, right, .. }
        | Instr::Rem { left, right, .. }
        | Instr::Equal { left, right, .. }
        | Instr::NotEqual { left, right, .. }
        | Instr::Less { left, right, .. }
        | Instr::AtMost { left, right, .. } => up_to_both(left, right),
        Instr::CutLeft { region, at, .. } | Instr::CutRight { region, at, .. } => {
            up_to_both(region, at)
        }
        Instr::Get { region, index, .. } => up_to_both(region, index),
        Instr::Put {
            region,
            index,
            from,
            ..
        } => up_to_both(region, index).max(up_to(from)),
    }
}

/// The width of a capsule of these instructions.
fn width_of(instrs: &[Instr]) -> u8
    ensures { result ≡ width_of instrs.now }
{
    let mut width = 0;
    let mut left = instrs;
    while let [first, rest @ ..] = left {
        width = width.max(instr_width(first));
        left = rest;
    }
    width
}

/// The widths of the capsules of a code, by their numbers. `Err` only where memory is refused.
pub fn widths(alloc: Global, code: &Code) -> Result<Items<u8>, NoMemory>
    ensures { IfOk result (AreWidths code.now) }
{
    let mut widths = Vec::new(alloc);
    let mut left = code.parts().capsules.as_slice();
    while let [first, rest @ ..] = left {
        widths.push(width_of(first.instrs.as_slice()))?;
        left = rest;
    }
    Ok(Items::from_vec(widths))
}
