//! The first end, other than a trap, to which paths lead.
ghost use Rattle.std.specs.Prelude.{◌≡◌, ◌↔◌, ◌<◌, ◌≤◌, IsTrue, Some, length};
ghost use Rattle.ppm_code.specs.Limits.{instr_limit};
ghost use Rattle.ppm_filled.specs.Filled.{built_in};
ghost use Rattle.ppm_war.specs.Search.{IsFirst};
ghost use Rattle.ppm_gaps.specs.Stops.{IsOther, LeadsToStop, built};

use crate::instrs::is_stop;
use crate::ways::leads;
use ppm_code::{Class, End, Instr};

/// What an end builds: a frame of a procedure that is called, or frames of two that are forked.
#[derive(Clone, Copy, Debug, PartialEq, Eq)]
pub(crate) enum Block {
    Callee(u32),
    Branches(u32, u32),
}

/// What an instruction builds, if it is an end that builds something.
pub(crate) fn block_of(instr: &Instr) -> Option<Block>
    ensures { built result ≡ built_in instr.now }
{
    match *instr {
        Instr::Ends(end) => match end {
            End::Call { procedure, .. } => Some(Block::Callee(procedure)),
            End::Fork { left, right, .. } => Some(Block::Branches(left, right)),
            End::Next { .. } | End::Finish | End::Trap { .. } => None,
        },
        Instr::Add { .. }
        | Instr::Sub { .. }
        | Instr::Mul { .. }
        | Instr::Div { .. }
        | Instr::Rem { .. }
        | Instr::CutLeft { .. }
        | Instr::CutRight { .. }
        | Instr::Get { .. }
        | Instr::Put { .. }
        | Instr::Const { .. }
        | Instr::Move { .. }
        | Instr::Equal { .. }
        | Instr::NotEqual { .. }
        | Instr::Less { .. }
        | Instr::AtMost { .. }
        | Instr::Len { .. }
        | Instr::LoadSlot { .. }
        | Instr::StoreCur { .. }
        | Instr::Give { .. }
        | Instr::BranchZero { .. }
        | Instr::BranchNonZero { .. }
        | Instr::Room { .. }
        | Instr::StoreNew { .. } => None,
    }
}

/// Whether two blocks are the same.
fn same(a: Block, b: Block) -> bool
    ensures { IsTrue result ↔ (a ≡ b) }
{
    a == b
}

/// Whether an instruction is an end that builds just this.
fn builds(instr: &Instr, block: Block) -> bool
    ensures { IsTrue result ↔ (built_in instr.now ≡ built (Some block)) }
{
    match block_of(instr) {
        Some(own) => same(own, block),
        None => false,
    }
}

/// Whether an instruction does not build this.
fn is_other(instr: &Instr, but: Option<Block>) -> bool
    ensures { IsTrue result ↔ IsOther but instr.now }
{
    match but {
        Some(block) => !builds(instr, block),
        None => true,
    }
}

/// Whether an instruction is an end other than a trap, to which a path leads from a place past
/// instructions that are allowed, and which builds something else.
fn leads_to_stop(
    instrs: &[Instr],
    class: Option<Class>,
    but: Option<Block>,
    from: usize,
    stop: usize,
) -> bool
    requires most { length instrs.now ≤ instr_limit }
    requires there { stop < length instrs.now }
    ensures { IsTrue result ↔ LeadsToStop instrs.now class but from stop }
{
    let instr = &instrs[stop];
    if !is_stop(instr) {
        return false;
    }
    if !is_other(instr, but) {
        return false;
    }
    leads(instrs, from, stop, class)
}

/// The first such end.
pub(crate) fn first_stop(
    instrs: &[Instr],
    class: Option<Class>,
    but: Option<Block>,
    from: usize,
) -> Option<u32>
    requires { length instrs.now ≤ instr_limit }
    ensures { IsFirst (LeadsToStop instrs.now class but from) result }
{
    let mut stop = 0;
    while stop < instrs.len() {
        if leads_to_stop(instrs, class, but, from, stop) {
            return Some(stop as u32);
        }
        stop += 1;
    }
    None
}
