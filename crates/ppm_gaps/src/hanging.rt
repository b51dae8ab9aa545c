//! What comes of a find at each place of a capsule, and the first trap that hangs on one.
ghost use Rattle.std.specs.Prelude.{◌≡◌, ◌↔◌, ◌⊎◌, ◌<◌, ◌≤◌, ℕ, true, IsTrue, get_or, length};
ghost use Rattle.std.specs.Int.{bit_at};
ghost use Rattle.ppm_code.specs.Limits.{instr_limit};
ghost use Rattle.ppm_code.specs.Paths.{GoesTo, may as may_do};
ghost use Rattle.ppm_filled.specs.Filled.{Hangs, IsHung, Mark, Way};
ghost use Rattle.ppm_filled.specs.Filled.{may_trap as traps};
ghost use Rattle.ppm_war.specs.Search.{IsFirst};
ghost use Rattle.ppm_gaps.specs.Hanging.{Behind, Has, HasAt, HasBit, HasOperand, HasOperandIn, HasTrapping};
ghost use Rattle.ppm_gaps.specs.Hanging.{IsWordBehind, IsInRange, IsBranch, nothing};
ghost use Rattle.ppm_gaps.specs.Hanging.{listed as list_of};

use crate::finds::is_find;
use crate::instrs::{may_trap, target};
use crate::operands::{Operands, read_by, trapping_by};
use ppm_code::{Instr, May, Register};

/// What comes of a find at a place: words in registers, a bit each, and which way a path went.
#[derive(Clone, Copy, Debug, PartialEq, Eq)]
pub(crate) struct Hanging {
    pub words: u64,
    pub way: bool,
}

/// Whether the word in a register comes of a find.
fn has_word(words: u64, register: Register) -> bool
    ensures { IsTrue result ↔ (bit_at words register.index ≡ 1) }
{
    (words >> register.index) & 1 == 1
}

/// Whether the word in a register does, if one is named.
fn has_some(words: u64, register: Option<Register>) -> bool
    ensures { IsTrue result ↔ HasBit words register }
{
    match register {
        Some(register) => has_word(words, register),
        None => false,
    }
}

/// Whether the word in one of these registers does.
fn has_one(words: u64, registers: Operands) -> bool
    ensures { IsTrue result ↔ HasOperandIn words (list_of registers) }
{
    if has_some(words, registers.first) {
        return true;
    }
    if has_some(words, registers.second) {
        return true;
    }
    has_some(words, registers.third)
}

/// Whether an operand of an instruction does.
fn has_operand(words: u64, instr: &Instr) -> bool
    ensures { IsTrue result ↔ HasOperand words instr.now }
{
    has_one(words, read_by(instr))
}

/// Whether the word in a register by which an instruction traps does.
fn has_trapping(words: u64, instr: &Instr) -> bool
    ensures { IsTrue result ↔ HasTrapping words instr.now }
{
    has_one(words, trapping_by(instr))
}

/// The words with that in a register.
fn with_word(words: u64, register: Register) -> u64
    ensures same { bit_at result register.index ≡ 1 }
    ensures others { (r : ℕ) → (r ≡ register.index → ⊥) → bit_at result r ≡ bit_at words r }
{
    words | (1 << register.index)
}

/// The words without that in a register.
fn without_word(words: u64, register: Register) -> u64
    ensures same { bit_at result register.index ≡ 0 }
    ensures others { (r : ℕ) → r < 64 → (r ≡ register.index → ⊥)
        → bit_at result r ≡ bit_at words r }
{
    words & !(1 << register.index)
}

/// The words that come of a find after an instruction that sets this register, by words that do or
/// not.
fn words_behind(words: u64, hung: bool, to: Option<Register>) -> u64
    ensures { (r : ℕ) → r < 64 → (bit_at result r ≡ 1) ↔ IsWordBehind words hung to r }
{
    match to {
        Some(register) => {
            if hung {
                with_word(words, register)
            } else {
                without_word(words, register)
            }
        }
        None => words,
    }
}

/// Whether an instruction is a branch on a word that comes of a find, as `hung` says.
fn parts(instr: &Instr, hung: bool) -> bool
    ensures { IsTrue result ↔ (IsTrue hung × IsBranch instr.now) }
{
    match instr.may() {
        May::Branch(_) => hung,
        May::Work => false,
        May::Read(_) => false,
        May::Write(_) => false,
        May::Stop => false,
    }
}

/// Whether one of two things is so.
fn either(a: bool, b: bool) -> bool
    ensures { IsTrue result ↔ (IsTrue a ⊎ IsTrue b) }
{
    a || b
}

/// What comes of a find after an instruction.
fn behind(row: Hanging, finds: bool, instr: &Instr) -> Hanging
    ensures { (m : Mark) → IsInRange m
        → Has result m ↔ Behind (Has row) (IsTrue finds) instr.now m }
{
    let hung = has_operand(row.words, instr);
    let sets = either(finds, hung);
    let parted = parts(instr, hung);
    let words = words_behind(row.words, sets, target(instr));
    let way = either(row.way, parted);
    Hanging { words, way }
}

/// The words of two sets.
fn union(a: u64, b: u64) -> u64
    ensures { (r : ℕ) → (bit_at result r ≡ 1) ↔ ((bit_at a r ≡ 1) ⊎ (bit_at b r ≡ 1)) }
{
    a | b
}

/// What comes of a find as one of two rows says.
fn join(a: Hanging, b: Hanging) -> Hanging
    ensures { (m : Mark) → Has result m ↔ (Has a m ⊎ Has b m) }
{
    let words = union(a.words, b.words);
    let way = either(a.way, b.way);
    Hanging { words, way }
}

/// The row at a place.
fn row_at(rows: &[Hanging; 160], at: usize) -> Hanging
    requires { at < instr_limit }
    ensures { result ≡ get_or rows.now at nothing }
{
    rows[at]
}

/// Puts what comes of a find to that at a place, if there is such a place.
fn put(rows: &mut [Hanging; 160], place: usize, row: Hanging)
    ensures { (to : ℕ) (m : Mark) → to < instr_limit
        → HasAt rows.new to m ↔ (HasAt rows.old to m ⊎ ((to ≡ place) × Has row m)) }
{
    if place >= 160 {
        return;
    }
    let joined = join(row_at(rows, place), row);
    rows[place] = joined;
}

/// Puts it to where a path goes on from an instruction at a place.
fn go_on(rows: &mut [Hanging; 160], may: May, at: usize, row: Hanging)
    requires { at < instr_limit }
    ensures { (to : ℕ) (m : Mark) → to < instr_limit
        → HasAt rows.new to m ↔ (HasAt rows.old to m ⊎ (GoesTo may at to × Has row m)) }
{
    match may {
        May::Work => put(rows, at + 1, row),
        May::Read(_) => put(rows, at + 1, row),
        May::Write(_) => put(rows, at + 1, row),
        May::Branch(target) => {
            put(rows, at + 1, row);
            put(rows, (target as usize).max(at + 1), row);
        }
        May::Stop => {}
    }
}

/// Passes an instruction at a place.
fn pass(rows: &mut [Hanging; 160], finds: bool, instr: &Instr, at: usize)
    requires { at < instr_limit }
    ensures { (to : ℕ) (m : Mark) → to < instr_limit → IsInRange m
        → HasAt rows.new to m ↔ (HasAt rows.old to m
        ⊎ (GoesTo (may_do instr.now) at to × Behind (HasAt rows.old at) (IsTrue finds) instr.now m)) }
{
    let row = behind(row_at(rows, at), finds, instr);
    go_on(rows, instr.may(), at, row);
}

/// What comes of a find at each place of a capsule.
fn rows_of(instrs: &[Instr]) -> [Hanging; 160]
    requires { length instrs.now ≤ instr_limit }
    ensures { (at : ℕ) (m : Mark) → at < length instrs.now → IsInRange m
        → HasAt result at m ↔ Hangs instrs.now at m }
{
    let mut rows = [Hanging {
        words: 0,
        way: false,
    }; 160];
    let mut at = 0;
    while at < instrs.len() {
        let finds = is_find(instrs, at);
        pass(&mut rows, finds, &instrs[at], at);
        at += 1;
    }
    rows
}

/// Whether an instruction may trap, and hangs on a find.
fn is_hung(row: Hanging, instr: &Instr) -> bool
    ensures { IsTrue result ↔ ((traps instr.now ≡ true)
        × (Has row Way ⊎ HasTrapping row.words instr.now)) }
{
    if !may_trap(instr) {
        return false;
    }
    if row.way {
        return true;
    }
    has_trapping(row.words, instr)
}

/// The first trap that hangs on a find.
pub(crate) fn first_hung(instrs: &[Instr]) -> Option<u32>
    requires { length instrs.now ≤ instr_limit }
    ensures { IsFirst (IsHung instrs.now) result }
{
    let rows = rows_of(instrs);
    let mut at = 0;
    while at < instrs.len() {
        if is_hung(row_at(&rows, at), &instrs[at]) {
            return Some(at as u32);
        }
        at += 1;
    }
    None
}
