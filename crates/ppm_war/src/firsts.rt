//! The first write of a class to which paths lead, from each place of a capsule.
ghost use Rattle.std.specs.Prelude.{◌≡◌, ◌<◌, ◌≤◌, ℕ, List, None, get_or, length};
ghost use Rattle.ppm_code.specs.Limits.{instr_limit};
ghost use Rattle.ppm_code.specs.Paths.{Does};
ghost use Rattle.ppm_code.specs.declared.instr.Instr.{Instr};
ghost use Rattle.ppm_war.specs.Marks.{IsDecoded};
ghost use Rattle.ppm_war.specs.Search.{IsFirst, LeadsToWrite, first_behind as behind};
ghost use Rattle.ppm_war.specs.Search.{lesser as lesser_of};

use crate::paths::writes;
use ppm_code::{Class, May};

/// The lesser of two numbers, where they are there.
fn lesser(a: Option<u32>, b: Option<u32>) -> Option<u32>
    ensures { result ≡ lesser_of a b }
{
    match (a, b) {
        (Some(a), Some(b)) => { if b < a { Some(b) } else { Some(a) } }
        (Some(a), None) => Some(a),
        (None, b) => b,
    }
}

/// What stands at a place, if there is such a place.
fn first_at(firsts: &[Option<u32>; 161], place: usize) -> Option<u32>
    ensures { result ≡ get_or firsts.now place None }
{
    if place < 161 { firsts[place] } else { None }
}

/// The first write to which an instruction at a place leads that is none itself, by those of later
/// places.
fn first_behind(firsts: &[Option<u32>; 161], may: May, at: usize) -> Option<u32>
    requires { at < instr_limit }
    ensures { result ≡ behind firsts.now may at }
{
    match may {
        May::Work => firsts[at + 1],
        May::Read(_) => firsts[at + 1],
        May::Write(_) => firsts[at + 1],
        May::Branch(target) => lesser(
            firsts[at + 1],
            first_at(firsts, (target as usize).max(at + 1)),
        ),
        May::Stop => None,
    }
}

/// The first write of the class to which paths from a place lead, by those of later places.
fn first_from(firsts: &[Option<u32>; 161], may: May, at: usize, class: Class) -> Option<u32>
    requires { at < instr_limit }
    ensures { (is : List Instr) → Does is at may
        → ((from : ℕ) → at < from
        → IsFirst (LeadsToWrite is class from) (get_or firsts.now from None))
        → IsFirst (LeadsToWrite is class at) result }
{
    if writes(may, class) {
        return Some(at as u32);
    }
    first_behind(firsts, may, at)
}

/// For each place of a capsule the first write of the class to which paths from there lead, by what
/// the instructions may do.
pub(crate) fn first_writes(mays: &[May], class: Class) -> [Option<u32>; 161]
    requires { length mays.now ≤ instr_limit }
    ensures { (is : List Instr) (from : ℕ) → IsDecoded is mays.now
        → IsFirst (LeadsToWrite is class from) (get_or result from None) }
{
    let mut firsts = [None; 161];
    let mut at = mays.len();
    while at > 0 {
        at -= 1;
        firsts[at] = first_from(&firsts, mays[at], at, class);
    }
    firsts
}
