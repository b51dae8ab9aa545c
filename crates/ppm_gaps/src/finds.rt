//! Which instructions may find another word on a second try.
ghost use Rattle.std.specs.Prelude.{◌≡◌, ◌↔◌, ◌<◌, ◌≤◌, ℕ, IsTrue, MatchOption, length};
ghost use Rattle.ppm_code.specs.declared.class.Class.TheVariants.{Slot};
ghost use Rattle.ppm_code.specs.declared.class.May.TheVariants.{Read};
ghost use Rattle.ppm_code.specs.Limits.{instr_limit};
ghost use Rattle.ppm_filled.specs.Filled.{IsFind};
ghost use Rattle.ppm_gaps.specs.Finds.{IsStoredAt, IsStoredBefore};

use crate::ways::{leads, may_be};
use ppm_code::{Class, Instr, May};

/// Whether a path comes to a place past this store of the slot.
fn is_stored_at(instrs: &[Instr], slot: u32, at: usize, store: usize) -> bool
    requires most { length instrs.now ≤ instr_limit }
    requires there { at < length instrs.now }
    requires before { store < at }
    ensures { IsTrue result ↔ IsStoredAt instrs.now slot at store }
{
    if !may_be(&instrs[store], May::Write(Class::Slot(slot))) {
        return false;
    }
    if !leads(instrs, 0, store, None) {
        return false;
    }
    leads(instrs, store + 1, at, None)
}

/// Whether a path comes to a place past a store of the slot.
fn is_stored_before(instrs: &[Instr], slot: u32, at: usize) -> bool
    requires most { length instrs.now ≤ instr_limit }
    requires there { at < length instrs.now }
    ensures { IsTrue result ↔ IsStoredBefore instrs.now slot at }
{
    let mut store = 0;
    while store < at {
        if is_stored_at(instrs, slot, at, store) {
            return true;
        }
        store += 1;
    }
    false
}

/// The slot that an instruction may load.
fn slot_read(may: May) -> Option<u32>
    ensures { MatchOption result ((slot : ℕ) → may ≡ Read (Slot slot) → ⊥)
        (λ slot. may ≡ Read (Slot slot)) }
{
    match may {
        May::Read(class) => match class {
            Class::Slot(slot) => Some(slot),
            Class::New(_) => None,
            Class::Value => None,
            Class::Room => None,
            Class::Array => None,
        },
        May::Work => None,
        May::Write(_) => None,
        May::Branch(_) => None,
        May::Stop => None,
    }
}

/// Whether an instruction may find another word on a second try: a read of an array word to which a
/// path comes, or a load of a slot that some path has stored before.
pub(crate) fn is_find(instrs: &[Instr], at: usize) -> bool
    requires most { length instrs.now ≤ instr_limit }
    requires there { at < length instrs.now }
    ensures { IsTrue result ↔ IsFind instrs.now at }
{
    let instr = &instrs[at];
    if may_be(instr, May::Read(Class::Array)) {
        return leads(instrs, 0, at, None);
    }
    match slot_read(instr.may()) {
        Some(slot) => is_stored_before(instrs, slot, at),
        None => false,
    }
}
