//! The registers that an instruction reads, and those by which it traps.
ghost use Rattle.std.specs.Prelude.{◌≡◌, None};
ghost use Rattle.ppm_filled.specs.Filled.{operands_of, traps_by};
ghost use Rattle.ppm_gaps.specs.Hanging.{listed};

use ppm_code::{Instr, Register};

/// Up to three registers.
#[derive(Clone, Copy, Debug, PartialEq, Eq)]
pub(crate) struct Operands {
    pub first: Option<Register>,
    pub second: Option<Register>,
    pub third: Option<Register>,
}

/// No register.
fn none() -> Operands
    ensures { result ≡ record { first = None; second = None; third = None } }
{
    Operands {
        first: None,
        second: None,
        third: None,
    }
}

/// The registers that an instruction reads.
pub(crate) fn read_by(instr: &Instr) -> Operands
    ensures { listed result ≡ operands_of instr.now }
{
    match *instr {
        Instr::Move { from, .. }
        | Instr::StoreCur { from, .. }
        | Instr::Give { from }
        | Instr::StoreNew { from, .. } => Operands {
            first: Some(from),
            second: None,
            third: None,
        },
        Instr::Add { left, right, .. }
        | Instr::Sub { left, right, .. }
        | Instr::Mul { left, right, .. }
        | Instr::Div { left, right, .. }
        | Instr::Rem { left, right, .. }
        | Instr::Equal { left, right, .. }
        | Instr::NotEqual { left, right, .. }
        | Instr::Less { left, right, .. }
        | Instr::AtMost { left, right, .. } => Operands {
            first: Some(left),
            second: Some(right),
            third: None,
        },
        Instr::CutLeft { region, at, .. } | Instr::CutRight { region, at, .. } => Operands {
            first: Some(region),
            second: Some(at),
            third: None,
        },
        Instr::Get { region, index, .. } => Operands {
            first: Some(region),
            second: Some(index),
            third: None,
        },
        Instr::Put {
            region,
            index,
            from,
            ..
        } => Operands {
            first: Some(region),
            second: Some(index),
            third: Some(from),
        },
        Instr::Len { region, .. } => Operands {
            first: Some(region),
            second: None,
            third: None,
        },
        Instr::BranchZero { tested, .. } | Instr::BranchNonZero { tested, .. } => Operands {
            first: Some(tested),
            second: None,
            third: None,
        },
        Instr::Const { .. } | Instr::LoadSlot { .. } | Instr::Room { .. } | Instr::Ends(..) =>
            none(),
    }
}

/// The registers by whose words an instruction traps or not, where it can.
pub(crate) fn trapping_by(instr: &Instr) -> Operands
    ensures { listed result ≡ traps_by instr.now }
{
    match *instr {
        Instr::Put { region, index, .. } => Operands {
            first: Some(region),
            second: Some(index),
            third: None,
        },
        Instr::Const { .. }
        | Instr::Move { .. }
        | Instr::Add { .. }
        | Instr::Sub { .. }
        | Instr::Mul { .. }
        | Instr::Div { .. }
        | Instr::Rem { .. }
        | Instr::Equal { .. }
        | Instr::NotEqual { .. }
        | Instr::Less { .. }
        | Instr::AtMost { .. }
        | Instr::Len { .. }
        | Instr::CutLeft { .. }
        | Instr::CutRight { .. }
        | Instr::LoadSlot { .. }
        | Instr::StoreCur { .. }
        | Instr::Give { .. }
        | Instr::Get { .. }
        | Instr::BranchZero { .. }
        | Instr::BranchNonZero { .. }
        | Instr::Room { .. }
        | Instr::StoreNew { .. }
        | Instr::Ends(..) => read_by(instr),
    }
}
