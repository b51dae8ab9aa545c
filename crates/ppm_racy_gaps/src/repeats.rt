//! The first exchange of a code after which a path comes to a put or to an exchange.
ghost use Rattle.std.specs.Prelude.{◌≡◌, ◌↔◌, ◌<◌, ◌≤◌, IsTrue, MatchOption, length, map};
ghost use Rattle.ppm_code.specs.Limits.{instr_limit};
ghost use Rattle.ppm_code.specs.Paths.{may as may_do};
ghost use Rattle.ppm_code.specs.declared.class.Class.TheVariants.{Array};
ghost use Rattle.ppm_code.specs.declared.class.May.TheVariants.{Write};
ghost use Rattle.ppm_war.specs.Search.{IsFirst, LeadsToWrite};
ghost use Rattle.ppm_racy.specs.Acts.{plain_of};
ghost use Rattle.ppm_racy.specs.Code.{instrs_of, plain_code};
ghost use Rattle.ppm_racy_gaps.specs.Conflicts.{is_exchange as exchanges};
ghost use Rattle.ppm_racy_gaps.specs.Repeats.{HasNoRepeat, IsRepeat, IsFirstRepeat, IsFirstRepeatIn};
ghost use Rattle.ppm_racy_gaps.specs.Repeats.{AreWithoutRepeats, IsFirstRepeatOf};

use ppm_code::{Class, Code, Instr, May};
use ppm_gaps::leads;
use ppm_racy::{RacyCode, RacyInstr};
use ppm_war::Conflict;

/// An exchange, and the first put or exchange to which a path leads from it. Places count from 0.
#[derive(Clone, Copy, Debug, PartialEq, Eq)]
pub(crate) struct Repeat {
    pub exchange: u32,
    pub write: u32,
}

/// Whether an instruction is an exchange.
fn is_exchange(instr: &RacyInstr) -> bool
    ensures { result ≡ exchanges instr.now }
{
    match *instr {
        RacyInstr::Cam { .. } => true,
        RacyInstr::Plain(_) => false,
    }
}

/// Whether an instruction writes array words.
fn writes_array(instr: &Instr) -> bool
    ensures { IsTrue result ↔ (may_do instr.now ≡ Write Array) }
{
    instr.may() == May::Write(Class::Array)
}

/// Whether a path from a place leads to a write of array words at another.
fn leads_to_write(instrs: &[Instr], from: usize, at: usize) -> bool
    requires most { length instrs.now ≤ instr_limit }
    requires there { at < length instrs.now }
    ensures { IsTrue result ↔ LeadsToWrite instrs.now Array from at }
{
    if !writes_array(&instrs[at]) {
        return false;
    }
    leads(instrs, from, at, None)
}

/// The first write of array words to which a path leads from a place.
fn first_write(instrs: &[Instr], from: usize) -> Option<u32>
    requires { length instrs.now ≤ instr_limit }
    ensures { IsFirst (LeadsToWrite instrs.now Array from) result }
{
    let mut at = 0;
    while at < instrs.len() {
        if leads_to_write(instrs, from, at) {
            return Some(at as u32);
        }
        at += 1;
    }
    None
}

/// The first put or exchange to which a path leads from an exchange at a place, if one stands there
/// to which a path comes; `plain` are the instructions with a put in place of each exchange.
fn write_after(instrs: &[RacyInstr], plain: &[Instr], at: usize) -> Option<u32>
    requires same { plain.now ≡ map plain_of instrs.now }
    requires even { length plain.now ≡ length instrs.now }
    requires most { length plain.now ≤ instr_limit }
    requires there { at < length instrs.now }
    ensures { IsFirst (IsRepeat instrs.now at) result }
{
    if !is_exchange(&instrs[at]) {
        return None;
    }
    if !leads(plain, 0, at, None) {
        return None;
    }
    first_write(plain, at + 1)
}

/// The first exchange of a capsule after which a put or an exchange comes on a path, with the first
/// of these.
fn repeat_in(instrs: &[RacyInstr], plain: &[Instr]) -> Option<Repeat>
    requires same { plain.now ≡ map plain_of instrs.now }
    requires even { length plain.now ≡ length instrs.now }
    requires most { length plain.now ≤ instr_limit }
    ensures { MatchOption result (HasNoRepeat instrs.now) (IsFirstRepeat instrs.now) }
{
    let mut at = 0;
    while at < instrs.len() {
        if let Some(write) = write_after(instrs, plain, at) {
            return Some(Repeat {
                exchange: at as u32,
                write,
            });
        }
        at += 1;
    }
    None
}

/// That of the capsule with a number.
fn repeat_of(code: &RacyCode, plain: &Code, number: usize) -> Option<Conflict>
    requires same { plain.now ≡ plain_code code.now }
    requires there { number < length code.now.capsules }
    requires even { number < length plain.now.capsules }
    ensures { MatchOption result (HasNoRepeat (instrs_of code.now number)) (IsFirstRepeatIn code.now number) }
{
    let own = &code.parts().capsules.as_slice()[number];
    let with_puts = &plain.parts().capsules.as_slice()[number];
    match repeat_in(own.instrs.as_slice(), with_puts.instrs.as_slice()) {
        Some(repeat) => Some(Conflict {
            capsule: number as u32,
            read_at: repeat.exchange,
            write_at: repeat.write,
            class: Class::Array,
        }),
        None => None,
    }
}

/// That of a code: of the least capsule that has one.
pub(crate) fn first_repeat(code: &RacyCode, plain: &Code) -> Option<Conflict>
    requires same { plain.now ≡ plain_code code.now }
    requires even { length plain.now.capsules ≡ length code.now.capsules }
    ensures { MatchOption result (AreWithoutRepeats code.now) (IsFirstRepeatOf code.now) }
{
    let count = code.parts().capsules.as_slice().len();
    let mut number = 0;
    while number < count {
        if let Some(repeat) = repeat_of(code, plain, number) {
            return Some(repeat);
        }
        number += 1;
    }
    None
}
