//! What an instruction is: an end other than a trap, one that may trap, the register that it sets.
ghost use Rattle.std.specs.Prelude.{◌≡◌};
ghost use Rattle.ppm_filled.specs.Filled.{is_stop as stops, may_trap as traps, target_of};

use ppm_code::{End, Instr, Register};

/// Whether an instruction is an end other than a trap.
pub(crate) fn is_stop(instr: &Instr) -> bool
    ensures { result ≡ stops instr.now }
{
    match *instr {
        Instr::Ends(end) => match end {
            End::Trap { .. } => false,
            End::Next { .. } | End::Finish | End::Call { .. } | End::Fork { .. } => true,
        },
        Instr::Add { .. }
        | Instr::Sub { .. }
        | Instr::Mul { .. }
        | Instr::Div { .. }
        | Instr::Rem { .. }
        | Instr::CutLeft { .. }
        | Instr::CutRight { .. }
        | Instr::Get { .. }
        | Instr::Put { .. }
        | Instr::Const { .. }
        | Instr::Move { .. }
        | Instr::Equal { .. }
        | Instr::NotEqual { .. }
        | Instr::Less { .. }
        | Instr::AtMost { .. }
        | Instr::Len { .. }
        | Instr::LoadSlot { .. }
        | Instr::StoreCur { .. }
        | Instr::Give { .. }
        | Instr::BranchZero { .. }
        | Instr::BranchNonZero { .. }
        | Instr::Room { .. }
        | Instr::StoreNew { .. } => false,
    }
}

/// Whether a capsule may be over by a trap at an instruction.
pub(crate) fn may_trap(instr: &Instr) -> bool
    ensures { result ≡ traps instr.now }
{
    match *instr {
        Instr::Ends(end) => match end {
            End::Trap { .. } => true,
            End::Next { .. } | End::Finish | End::Call { .. } | End::Fork { .. } => false,
        },
        Instr::Add { .. }
        | Instr::Sub { .. }
        | Instr::Mul { .. }
        | Instr::Div { .. }
        | Instr::Rem { .. }
        | Instr::CutLeft { .. }
        | Instr::CutRight { .. }
        | Instr::Get { .. }
        | Instr::Put { .. } => true,
        Instr::Const { .. }
        | Instr::Move { .. }
        | Instr::Equal { .. }
        | Instr::NotEqual { .. }
        | Instr::Less { .. }
        | Instr::AtMost { .. }
        | Instr::Len { .. }
        | Instr::LoadSlot { .. }
        | Instr::StoreCur { .. }
        | Instr::Give { .. }
        | Instr::BranchZero { .. }
        | Instr::BranchNonZero { .. }
        | Instr::Room { .. }
        | Instr::StoreNew { .. } => false,
    }
}

/// The register that an instruction sets.
pub(crate) fn target(instr: &Instr) -> Option<Register>
    ensures { result ≡ target_of instr.now }
{
    match *instr {
        Instr::Const { to, .. }
        | Instr::Move { to, .. }
        | Instr::Add { to, .. }
        | Instr::Sub { to, .. }
        | Instr::Mul { to, .. }
        | Instr::Div { to, .. }
        | Instr::Rem { to, .. }
        | Instr::Equal { to, .. }
        | Instr::NotEqual { to, .. }
        | Instr::Less { to, .. }
        | Instr::AtMost { to, .. }
        | Instr::Len { to, .. }
        | Instr::CutLeft { to, .. }
        | Instr::CutRight { to, .. }
        | Instr::LoadSlot { to, .. }
        | Instr::Get { to, .. } => Some(to),
        Instr::StoreCur { .. }
        | Instr::Give { .. }
        | Instr::Put { .. }
        | Instr::BranchZero { .. }
        | Instr::BranchNonZero { .. }
        | Instr::Room { .. }
        | Instr::StoreNew { .. }
        | Instr::Ends(..) => None,
    }
}
