//! Whether what a capsule stores into a new block is a slot of a frame that its end builds.
ghost use Rattle.std.specs.Prelude.{◌≡◌, ◌↔◌, ◌+◌, ◌<◌, ◌≤◌, false, IsTrue, length};
ghost use Rattle.ppm_code.specs.Limits.{instr_limit, slot_limit};
ghost use Rattle.ppm_code.specs.Sizes.{slots_of as slots_in_code};
ghost use Rattle.ppm_code.specs.Tidy.{Builds, IsBuilder, IsTidyStore};
ghost use Rattle.ppm_code.specs.Tidy.{LeadsToBuild, MayFollow};
ghost use Rattle.ppm_code.specs.Tidy.{can_trap as traps};
ghost use Rattle.ppm_war.specs.Stores.{HasBuilder, IsTidyAt, IsWithinFrame, end_in};
ghost use Rattle.ppm_war.specs.Stores.{stored_in};
ghost use Rattle.ppm_war.specs.Marks.{IsMarked};
ghost use Rattle.ppm_code.specs.Paths.{Any, Path};

use crate::paths::all_places_from;
use ppm_code::{Code, End, Instr};

/// The slots of a procedure's frames; none where there is no such procedure.
fn slots_of(code: &Code, procedure: u32) -> u32
    ensures value { result ≡ slots_in_code code.now procedure }
    ensures bound { result ≤ slot_limit }
{
    match code.parts().procedures.as_slice().get(procedure as usize) {
        Some(found) => found.slots,
        None => 0,
    }
}

/// Whether a word of a block is a slot of the frame at a place of it.
fn is_within_frame(frame: u32, slots: u32, word: u32) -> bool
    requires frame { frame ≤ 100 }
    requires slots { slots ≤ slot_limit }
    ensures { IsTrue result ↔ IsWithinFrame frame slots word }
{
    frame + 6 <= word && word < frame + (6 + slots)
}

/// Whether an end builds a frame of which the word of the new block is a slot.
fn builds(code: &Code, end: End, word: u32) -> bool
    ensures { IsTrue result ↔ Builds code.now end word }
{
    match end {
        End::Call { procedure, .. } => is_within_frame(0, slots_of(code, procedure), word),
        End::Fork { left, right, .. } => {
            let left_slots = slots_of(code, left);
            let right_slots = slots_of(code, right);
            is_within_frame(5, left_slots, word)
                || is_within_frame(5 + (6 + left_slots), right_slots, word)
        }
        End::Next { .. } | End::Finish | End::Trap { .. } => false,
    }
}

/// Whether an instruction can trap. An end that traps is none of these.
fn can_trap(instr: &Instr) -> bool
    ensures { result ≡ traps instr.now }
{
    match *instr {
        Instr::Add { .. }
        | Instr::Sub { .. }
        | Instr::Mul { .. }
        | Instr::Div { .. }
        | Instr::Rem { .. }
        | Instr::CutLeft { .. }
        | Instr::CutRight { .. }
        | Instr::Get { .. }
        | Instr::Put { .. } => true,
        Instr::Const { .. }
        | Instr::Move { .. }
        | Instr::Equal { .. }
        | Instr::NotEqual { .. }
        | Instr::Less { .. }
        | Instr::AtMost { .. }
        | Instr::Len { .. }
        | Instr::LoadSlot { .. }
        | Instr::StoreCur { .. }
        | Instr::Give { .. }
        | Instr::BranchZero { .. }
        | Instr::BranchNonZero { .. }
        | Instr::Room { .. }
        | Instr::StoreNew { .. }
        | Instr::Ends(..) => false,
    }
}

/// The end that an instruction is.
fn end_of(instr: &Instr) -> Option<End>
    ensures { result ≡ end_in instr.now }
{
    match *instr {
        Instr::Ends(end) => Some(end),
        Instr::Add { .. }
        | Instr::Sub { .. }
        | Instr::Mul { .. }
        | Instr::Div { .. }
        | Instr::Rem { .. }
        | Instr::CutLeft { .. }
        | Instr::CutRight { .. }
        | Instr::Get { .. }
        | Instr::Put { .. }
        | Instr::Const { .. }
        | Instr::Move { .. }
        | Instr::Equal { .. }
        | Instr::NotEqual { .. }
        | Instr::Less { .. }
        | Instr::AtMost { .. }
        | Instr::Len { .. }
        | Instr::LoadSlot { .. }
        | Instr::StoreCur { .. }
        | Instr::Give { .. }
        | Instr::BranchZero { .. }
        | Instr::BranchNonZero { .. }
        | Instr::Room { .. }
        | Instr::StoreNew { .. } => None,
    }
}

/// Whether an instruction may follow a store of the word.
fn may_follow(code: &Code, instr: &Instr, word: u32) -> bool
    ensures { IsTrue result ↔ MayFollow code.now instr.now word }
{
    match end_of(instr) {
        Some(end) => builds(code, end, word),
        None => !can_trap(instr),
    }
}

/// Whether an instruction is an end that builds the word.
fn is_builder(code: &Code, instr: &Instr, word: u32) -> bool
    ensures { IsTrue result ↔ IsBuilder code.now instr.now word }
{
    match end_of(instr) {
        Some(end) => builds(code, end, word),
        None => false,
    }
}

/// Whether some end of a capsule builds the word.
fn has_builder(code: &Code, instrs: &[Instr], word: u32) -> bool
    ensures { IsTrue result ↔ HasBuilder code.now instrs.now word }
{
    instrs.iter().any(|instr| is_builder(code, instr, word))
}

/// Whether an instruction may follow a store of the word, if its place is marked.
fn is_clear(code: &Code, marks: &[bool; 160], at: usize, instr: &Instr, word: u32) -> bool
    requires { at < instr_limit }
    ensures { IsTrue result ↔ (IsMarked marks.now at → MayFollow code.now instr.now word) }
{
    !marks[at] || may_follow(code, instr, word)
}

/// Whether each path from a place comes to an end that builds the word, past no instruction that
/// can trap.
fn leads_to_build(code: &Code, instrs: &[Instr], from: usize, word: u32) -> bool
    requires { length instrs.now ≤ instr_limit }
    ensures { IsTrue result ↔ LeadsToBuild code.now instrs.now from word }
{
    let marks = all_places_from(instrs, from);
    let mut at = 0;
    while at < instrs.len() {
        if !is_clear(code, &marks, at, &instrs[at], word) {
            return false;
        }
        at += 1;
    }
    true
}

/// Whether a path comes to a place from the first instruction.
fn is_reached(instrs: &[Instr], at: usize) -> bool
    requires most { length instrs.now ≤ instr_limit }
    requires there { at < length instrs.now }
    ensures { IsTrue result ↔ Path instrs.now Any 0 at }
{
    all_places_from(instrs, 0)[at]
}

/// Whether a store of the word at a place is tidy.
fn is_tidy_store(code: &Code, instrs: &[Instr], at: usize, word: u32) -> bool
    requires most { length instrs.now ≤ instr_limit }
    requires there { at < length instrs.now }
    ensures { IsTrue result ↔ IsTidyStore code.now instrs.now at word }
{
    let leads = !is_reached(instrs, at) || leads_to_build(code, instrs, at + 1, word);
    leads && has_builder(code, instrs, word)
}

/// The word of the new block that an instruction stores.
fn stored_by(instr: &Instr) -> Option<u32>
    ensures { result ≡ stored_in instr.now }
{
    match *instr {
        Instr::StoreNew { offset, .. } => Some(offset),
        Instr::Add { .. }
        | Instr::Sub { .. }
        | Instr::Mul { .. }
        | Instr::Div { .. }
        | Instr::Rem { .. }
        | Instr::CutLeft { .. }
        | Instr::CutRight { .. }
        | Instr::Get { .. }
        | Instr::Put { .. }
        | Instr::Const { .. }
        | Instr::Move { .. }
        | Instr::Equal { .. }
        | Instr::NotEqual { .. }
        | Instr::Less { .. }
        | Instr::AtMost { .. }
        | Instr::Len { .. }
        | Instr::LoadSlot { .. }
        | Instr::StoreCur { .. }
        | Instr::Give { .. }
        | Instr::BranchZero { .. }
        | Instr::BranchNonZero { .. }
        | Instr::Room { .. }
        | Instr::Ends(..) => None,
    }
}

/// Whether the instruction at a place is no store into the new block, or a tidy one.
pub(crate) fn is_tidy_at(code: &Code, instrs: &[Instr], at: usize) -> bool
    requires most { length instrs.now ≤ instr_limit }
    requires there { at < length instrs.now }
    ensures { IsTrue result ↔ IsTidyAt code.now instrs.now at }
{
    match stored_by(&instrs[at]) {
        Some(word) => is_tidy_store(code, instrs, at, word),
        None => true,
    }
}
