//! The places of a capsule that paths come to.
ghost use Rattle.std.specs.Prelude.{◌≡◌, ◌↔◌, ◌⊎◌, ◌<◌, ◌≤◌, ℕ, IsTrue, List, None, length, take};
ghost use Rattle.ppm_code.specs.Limits.{instr_limit};
ghost use Rattle.ppm_code.specs.Paths.{GoesTo, Path};
ghost use Rattle.ppm_code.specs.declared.class.May.TheVariants.{Write};
ghost use Rattle.ppm_code.specs.declared.instr.Instr.{Instr};
ghost use Rattle.ppm_war.specs.Marks.{Allows, GoesOnTo, IsDecoded, IsMarked};

use ppm_code::{Class, Instr, May};

/// Whether what an instruction may do is a write of the class.
pub(crate) fn writes(may: May, class: Class) -> bool
    ensures { IsTrue result ↔ (may ≡ Write class) }
{
    match may {
        May::Write(written) => written == class,
        May::Work | May::Read(_) | May::Branch(_) | May::Stop => false,
    }
}

/// Whether a path may pass such an instruction: any, where no class is named; else one that does
/// not write the class, and any for the array words.
fn allows(class: Option<Class>, may: May) -> bool
    ensures { IsTrue result ↔ Allows class may }
{
    match class {
        None | Some(Class::Array) => true,
        Some(Class::Slot(slot)) => !writes(may, Class::Slot(slot)),
        Some(Class::New(offset)) => !writes(may, Class::New(offset)),
        Some(Class::Value) => !writes(may, Class::Value),
        Some(Class::Room) => !writes(may, Class::Room),
    }
}

/// Marks a place, if it is below 160.
fn mark(marks: &mut [bool; 160], place: usize)
    ensures { (to : ℕ) → to < instr_limit
        → IsMarked marks.new to ↔ (IsMarked marks.old to ⊎ (to ≡ place)) }
{
    if place < 160 {
        marks[place] = true;
    }
}

/// Marks where a path goes on from an instruction at a place.
fn go_on(marks: &mut [bool; 160], may: May, at: usize)
    requires { at < instr_limit }
    ensures { (to : ℕ) → to < instr_limit
        → IsMarked marks.new to ↔ (IsMarked marks.old to ⊎ GoesTo may at to) }
{
    match may {
        May::Work => mark(marks, at + 1),
        May::Read(_) => mark(marks, at + 1),
        May::Write(_) => mark(marks, at + 1),
        May::Branch(target) => {
            mark(marks, at + 1);
            mark(marks, (target as usize).max(at + 1));
        }
        May::Stop => {}
    }
}

/// Passes an instruction at a place, if the place is marked and the instruction allowed.
fn pass(marks: &mut [bool; 160], may: May, at: usize, class: Option<Class>)
    requires { at < instr_limit }
    ensures { (to : ℕ) → to < instr_limit
        → IsMarked marks.new to ↔ (IsMarked marks.old to ⊎ GoesOnTo marks.old class may at to) }
{
    if marks[at] && allows(class, may) {
        go_on(marks, may, at);
    }
}

/// What each instruction of a capsule may do.
pub fn decoded(instrs: &[Instr]) -> [May; 160]
    requires { length instrs.now ≤ instr_limit }
    ensures { IsDecoded instrs.now (take (length instrs.now) result) }
{
    let mut mays = [May::Stop; 160];
    let mut at = 0;
    while at < instrs.len() {
        mays[at] = instrs[at].may();
        at += 1;
    }
    mays
}

/// The places that a path comes to from one of them, past instructions that are allowed, by what
/// the instructions may do.
pub fn places_from(mays: &[May], from: usize, class: Option<Class>) -> [bool; 160]
    requires { length mays.now ≤ instr_limit }
    ensures { (is : List Instr) (to : ℕ) → IsDecoded is mays.now → to < length is
        → IsMarked result to ↔ Path is (Allows class) from to }
{
    let mut marks = [false; 160];
    mark(&mut marks, from);
    let mut at = from;
    while at < mays.len() {
        pass(&mut marks, mays[at], at, class);
        at += 1;
    }
    marks
}

/// The places of a capsule that any path comes to from one of them.
pub(crate) fn all_places_from(instrs: &[Instr], from: usize) -> [bool; 160]
    requires { length instrs.now ≤ instr_limit }
    ensures { (to : ℕ) → to < length instrs.now
        → IsMarked result to ↔ Path instrs.now (Allows None) from to }
{
    let mays = decoded(instrs);
    places_from(&mays[..instrs.len()], from, None)
}
