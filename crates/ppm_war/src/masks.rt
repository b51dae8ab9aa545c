//! Sets of classes, as bits: which may be exposed at each place of a capsule, and which may be
//! written from there on. They may have too many classes, and never too few.
ghost use Rattle.std.specs.Prelude.{◌≡◌, ◌↔◌, ◌+◌, ◌<◌, ◌≤◌, ℕ, List, IsTrue, get_or, length};
ghost use Rattle.std.specs.Int.{bit_at};
ghost use Rattle.ppm_code.specs.Limits.{instr_limit};
ghost use Rattle.ppm_code.specs.Paths.{Exposes, GoesTo, HasNoConflict, Path};
ghost use Rattle.ppm_code.specs.declared.class.Class.{Class};
ghost use Rattle.ppm_code.specs.declared.class.May.TheVariants.{Read, Write};
ghost use Rattle.ppm_code.specs.declared.instr.Instr.{Instr};
ghost use Rattle.ppm_war.specs.Marks.{IsDecoded};
ghost use Rattle.ppm_war.specs.Masks.{Has, HasAt, class_bit as bit_of_class};
ghost use Rattle.ppm_war.specs.Search.{LeadsToWrite};

use crate::conflict::class_read;
use ppm_code::{Class, May};

/// The bit of a class: slots below 31 have one each, all other classes share one.
fn class_bit(class: Class) -> u32
    ensures value { result ≡ bit_of_class class }
    ensures bound { result < 32 }
{
    match class {
        Class::Slot(slot) => slot.min(31),
        Class::New(_) | Class::Value | Class::Room | Class::Array => 31,
    }
}

/// Whether a bit is set.
fn has_bit(mask: u32, bit: u32) -> bool
    requires { bit < 32 }
    ensures { IsTrue result ↔ (bit_at mask bit ≡ 1) }
{
    (mask >> bit) & 1 == 1
}

/// The set with a bit.
fn with_bit(mask: u32, bit: u32) -> u32
    requires { bit < 32 }
    ensures same { bit_at result bit ≡ 1 }
    ensures kept { (other : ℕ) → bit_at mask other ≡ 1 → bit_at result other ≡ 1 }
{
    mask | (1 << bit)
}

/// The set without a bit.
fn without_bit(mask: u32, bit: u32) -> u32
    requires { bit < 32 }
    ensures { (other : ℕ) → other < 32 → (other ≡ bit → ⊥) → bit_at mask other ≡ 1
        → bit_at result other ≡ 1 }
{
    mask & !(1 << bit)
}

/// The bits of two sets.
fn both(a: u32, b: u32) -> u32
    ensures left { (bit : ℕ) → bit_at a bit ≡ 1 → bit_at result bit ≡ 1 }
    ensures right { (bit : ℕ) → bit_at b bit ≡ 1 → bit_at result bit ≡ 1 }
{
    a | b
}

/// The set after a write of a class: that goes, if no other class has its bit.
fn behind_write(mask: u32, written: Class) -> u32
    ensures { (c : Class) → Has mask c → Exposes c (Write written) → Has result c }
{
    let bit = class_bit(written);
    if bit == 31 {
        return mask;
    }
    without_bit(mask, bit)
}

/// The set at a place, if there is such a place.
fn mask_at(masks: &[u32; 161], place: usize) -> u32
    ensures { result ≡ get_or masks.now place 0 }
{
    if place < 161 { masks[place] } else { 0 }
}

/// Puts the classes of a set to those at a place, if there is such a place.
fn put(masks: &mut [u32; 161], place: usize, mask: u32)
    ensures kept { (c : Class) (to : ℕ) → HasAt masks.old to c → HasAt masks.new to c }
    ensures there { (c : Class) → place < 161 → Has mask c → HasAt masks.new place c }
{
    if place < 161 {
        masks[place] = both(masks[place], mask);
    }
}

/// Puts what is exposed after an instruction at a place to where a path goes on.
fn expose(masks: &mut [u32; 161], may: May, at: usize)
    requires { at < instr_limit }
    ensures kept { (c : Class) (to : ℕ) → HasAt masks.old to c → HasAt masks.new to c }
    ensures goes { (c : Class) (to : ℕ) → to < 161 → HasAt masks.old at c → Exposes c may
        → GoesTo may at to
        → HasAt masks.new to c }
{
    let mask = masks[at];
    match may {
        May::Work => put(masks, at + 1, mask),
        May::Read(_) => put(masks, at + 1, mask),
        May::Write(class) => put(masks, at + 1, behind_write(mask, class)),
        May::Branch(target) => {
            put(masks, at + 1, mask);
            put(masks, (target as usize).max(at + 1), mask);
        }
        May::Stop => {}
    }
}

/// The classes that may be exposed at each place.
fn exposed(mays: &[May]) -> [u32; 161]
    requires { length mays.now ≤ instr_limit }
    ensures { (is : List Instr) (c : Class) (to : ℕ) → IsDecoded is mays.now → to < length is
        → Path is (Exposes c) 0 to → HasAt result to c }
{
    let mut masks = [0; 161];
    masks[0] = u32::MAX;
    let mut at = 0;
    while at < mays.len() {
        expose(&mut masks, mays[at], at);
        at += 1;
    }
    masks
}

/// The classes that may be written from an instruction at a place on, by those of later places.
fn written_from(masks: &[u32; 161], may: May, at: usize) -> u32
    requires { at < instr_limit }
    ensures here { (c : Class) → may ≡ Write c → Has result c }
    ensures later { (c : Class) (next : ℕ) → GoesTo may at next → HasAt masks.now next c
        → Has result c }
{
    match may {
        May::Work => masks[at + 1],
        May::Read(_) => masks[at + 1],
        May::Write(class) => with_bit(masks[at + 1], class_bit(class)),
        May::Branch(target) => both(masks[at + 1], mask_at(masks, (target as usize).max(at + 1))),
        May::Stop => 0,
    }
}

/// The classes that may be written from each place on.
fn written(mays: &[May]) -> [u32; 161]
    requires { length mays.now ≤ instr_limit }
    ensures { (is : List Instr) (c : Class) (from write : ℕ) → IsDecoded is mays.now
        → LeadsToWrite is c from write → HasAt result from c }
{
    let mut masks = [0; 161];
    let mut at = mays.len();
    while at > 0 {
        at -= 1;
        masks[at] = written_from(&masks, mays[at], at);
    }
    masks
}

/// Whether an instruction may be a read that is exposed and whose class may be written after it.
fn may_conflict(may: May, before: u32, after: u32) -> bool
    ensures { (c : Class) → may ≡ Read c → Has before c → Has after c → IsTrue result }
{
    match class_read(may) {
        Some(class) => has_bit(before, class_bit(class)) && has_bit(after, class_bit(class)),
        None => false,
    }
}

/// Whether it is seen at once that no read of a capsule is in conflict, in two passes for all
/// classes.
pub(crate) fn is_free(mays: &[May]) -> bool
    requires { length mays.now ≤ instr_limit }
    ensures { (is : List Instr) → IsDecoded is mays.now → IsTrue result → HasNoConflict is }
{
    let before = exposed(mays);
    let after = written(mays);
    let mut at = 0;
    while at < mays.len() {
        if may_conflict(mays[at], before[at], after[at + 1]) {
            return false;
        }
        at += 1;
    }
    true
}
