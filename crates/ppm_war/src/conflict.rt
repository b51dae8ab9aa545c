//! The first conflict of a capsule.
ghost use Rattle.std.specs.Prelude.{◌≡◌, ◌↔◌, ◌<◌, ◌≤◌, ◌+◌, IsTrue, List, MatchOption, None};
ghost use Rattle.std.specs.Prelude.{get_or, take, length};
ghost use Rattle.std.specs.List.{Contains};
ghost use Rattle.ppm_code.specs.Limits.{instr_limit};
ghost use Rattle.ppm_code.specs.Paths.{Exposes, HasNoConflict, IsConflict, Path};
ghost use Rattle.ppm_code.specs.declared.class.Class.{Class};
ghost use Rattle.ppm_code.specs.declared.class.May.TheVariants.{Read, Write};
ghost use Rattle.ppm_code.specs.declared.instr.Instr.{Instr};
ghost use Rattle.ppm_war.specs.Conflicts.{IsFirstConflict};
ghost use Rattle.ppm_war.specs.Marks.{IsDecoded, IsMarked};
ghost use Rattle.ppm_war.specs.Search.{Is, IsAnswer, IsFirst, IsReadBelow, LeadsToWrite};
ghost use Rattle.ppm_war.specs.Search.{earlier as earlier_of};

use crate::firsts::first_writes;
use crate::masks::is_free;
use crate::paths::{decoded, places_from, writes};
use ppm_code::{Class, Instr, May};

/// A conflict of a capsule: an exposed read and a later write of one class. Places count from 0.
#[derive(Clone, Copy, Debug, PartialEq, Eq)]
pub struct Found {
    pub read_at: u32,
    pub write_at: u32,
    pub class: Class,
}

/// Whether what an instruction may do is a read of the class.
fn reads(may: May, class: Class) -> bool
    ensures { IsTrue result ↔ (may ≡ Read class) }
{
    match may {
        May::Read(read) => read == class,
        May::Work | May::Write(_) | May::Branch(_) | May::Stop => false,
    }
}

/// Whether an instruction of a capsule may write the class.
fn is_written(mays: &[May], class: Class) -> bool
    ensures { IsTrue result ↔ Contains mays.now (Write class) }
{
    mays.iter().any(|may| writes(*may, class))
}

/// Whether an instruction in front of a place may read the class.
fn is_read_before(mays: &[May], place: usize, class: Class) -> bool
    requires { place < length mays.now }
    ensures { IsTrue result ↔ Contains (take place mays.now) (Read class) }
{
    mays[..place].iter().any(|may| reads(*may, class))
}

/// The first write that is in conflict with a read of the class at a place, by whether the read is
/// exposed, and by the first write to which each place leads.
fn write_after(
    mays: &[May],
    before: &[bool; 160],
    firsts: &[Option<u32>; 161],
    read_at: usize,
    class: Class,
) -> Option<u32>
    requires most { length mays.now ≤ instr_limit }
    requires there { read_at < length mays.now }
    ensures { (is : List Instr) → IsDecoded is mays.now
        → (IsMarked before.now read_at ↔ Path is (Exposes class) 0 read_at)
        → IsFirst (LeadsToWrite is class (read_at + 1)) (get_or firsts.now (read_at + 1) None)
        → IsFirst (λ write. IsConflict is read_at write class) result }
{
    if !before[read_at] {
        return None;
    }
    if !reads(mays[read_at], class) {
        return None;
    }
    firsts[read_at + 1]
}

/// The first conflict of the class, by what the instructions of a capsule may do.
fn conflict_of(mays: &[May], class: Class) -> Option<Found>
    requires { length mays.now ≤ instr_limit }
    ensures { (is : List Instr) → IsDecoded is mays.now → IsAnswer (Is class) is result }
{
    if !is_written(mays, class) {
        return None;
    }
    let before = places_from(mays, 0, Some(class));
    let firsts = first_writes(mays, class);
    let mut read_at = 0;
    while read_at < mays.len() {
        if let Some(write_at) = write_after(mays, &before, &firsts, read_at, class) {
            return Some(Found {
                read_at: read_at as u32,
                write_at,
                class,
            });
        }
        read_at += 1;
    }
    None
}

/// The class that an instruction may read.
pub(crate) fn class_read(may: May) -> Option<Class>
    ensures { MatchOption result ((class : Class) → may ≡ Read class
        → ⊥) (λ class. may ≡ Read class) }
{
    match may {
        May::Read(class) => Some(class),
        May::Work | May::Write(_) | May::Branch(_) | May::Stop => None,
    }
}

/// That of two conflicts with the lesser read.
fn earlier(a: Option<Found>, b: Option<Found>) -> Option<Found>
    ensures { result ≡ earlier_of a b }
{
    match (a, b) {
        (Some(a), Some(b)) => {
            if b.read_at < a.read_at {
                Some(b)
            } else {
                Some(a)
            }
        }
        (Some(a), None) => Some(a),
        (None, b) => b,
    }
}

/// The first conflict of the classes that are read up to a place, by that of those below it. A
/// class is searched where it is read for the first time.
fn with_class_at(mays: &[May], found: Option<Found>, place: usize) -> Option<Found>
    requires most { length mays.now ≤ instr_limit }
    requires there { place < length mays.now }
    ensures { (is : List Instr) → IsDecoded is mays.now
        → IsAnswer (IsReadBelow is place) is found
        → IsAnswer (IsReadBelow is (place + 1)) is result }
{
    match class_read(mays[place]) {
        Some(class) => {
            if is_read_before(mays, place, class) {
                return found;
            }
            earlier(found, conflict_of(mays, class))
        }
        None => found,
    }
}

/// The conflict with the least read, and then the least write, by what the instructions may do.
fn first_conflict(mays: &[May]) -> Option<Found>
    requires { length mays.now ≤ instr_limit }
    ensures { (is : List Instr) → IsDecoded is mays.now
        → MatchOption result (HasNoConflict is) (IsFirstConflict is) }
{
    if is_free(mays) {
        return None;
    }
    let mut found = None;
    let mut place = 0;
    while place < mays.len() {
        found = with_class_at(mays, found, place);
        place += 1;
    }
    found
}

/// The conflict of a capsule with the least read, and then the least write; `None` exactly where no
/// path has one. Two passes over the capsule tell most that have none, and each class that is read
/// takes two more.
pub fn conflict_in(instrs: &[Instr]) -> Option<Found>
    requires { length instrs.now ≤ instr_limit }
    ensures { MatchOption result (HasNoConflict instrs.now) (IsFirstConflict instrs.now) }
{
    let mays = decoded(instrs);
    first_conflict(&mays[..instrs.len()])
}
