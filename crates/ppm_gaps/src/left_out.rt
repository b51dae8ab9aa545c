//! Words of the frame that a capsule may leave as they are, though it may store them after a find.
ghost use Rattle.std.specs.Prelude.{◌≡◌, ◌↔◌, ◌<◌, ◌≤◌, IsTrue, MatchOption, length};
ghost use Rattle.ppm_code.specs.Limits.{instr_limit};
ghost use Rattle.ppm_code.specs.declared.class.Class.{Class};
ghost use Rattle.ppm_code.specs.declared.class.May.TheVariants.{Write};
ghost use Rattle.ppm_filled.specs.Filled.{IsFind, IsOfFrame};
ghost use Rattle.ppm_war.specs.Search.{IsFirst};
ghost use Rattle.ppm_gaps.specs.Gaps.{HasNoLeftOut, IsFirstLeftOut};
ghost use Rattle.ppm_gaps.specs.LeftOut.{HasLeftOut, HasLeftOutOf};
ghost use Rattle.ppm_gaps.specs.LeftOut.{IsFirstOfFind, IsFirstOfWrite};
ghost use Rattle.ppm_code.specs.Paths.{Does};
ghost use Rattle.ppm_gaps.specs.Stops.{StaysWithin};

use crate::finds::is_find;
use crate::stops::first_stop;
use crate::ways::leads;
use ppm_code::{Class, Instr, May};

/// A word of the frame that some path stores at `write` after `find`, while some path that had not
/// stored it before `find` comes to the end at `stop` without. Places count from 0.
#[derive(Clone, Copy, Debug, PartialEq, Eq)]
pub struct LeftOut {
    pub find: u32,
    pub write: u32,
    pub stop: u32,
    pub class: Class,
}

/// Whether it is a class of words of the frame that instructions store.
fn is_of_frame(class: Class) -> bool
    ensures { IsTrue result ↔ IsOfFrame class }
{
    match class {
        Class::Slot(_) => true,
        Class::Value => true,
        Class::New(_) => false,
        Class::Room => false,
        Class::Array => false,
    }
}

/// The class of the frame that an instruction may write.
fn frame_class(may: May) -> Option<Class>
    ensures { MatchOption result ((class : Class) → may ≡ Write class → IsOfFrame class → ⊥)
        (λ class. (may ≡ Write class) × IsOfFrame class) }
{
    match may {
        May::Write(class) => {
            if is_of_frame(class) {
                Some(class)
            } else {
                None
            }
        }
        May::Work => None,
        May::Read(_) => None,
        May::Branch(_) => None,
        May::Stop => None,
    }
}

/// The first stop without a word that is stored at a place after a find.
fn stop_without(instrs: &[Instr], find: usize, write: usize, class: Class) -> Option<LeftOut>
    requires most { length instrs.now ≤ instr_limit }
    requires closed { StaysWithin instrs.now }
    requires finds { IsFind instrs.now find }
    requires after { find < write }
    requires there { write < length instrs.now }
    requires of_frame { IsOfFrame class }
    requires writes { Does instrs.now write (Write class) }
    ensures { MatchOption result (HasLeftOut instrs.now find write → ⊥)
        (IsFirstOfWrite instrs.now find write) }
{
    if !leads(instrs, 0, find, Some(class)) {
        return None;
    }
    if !leads(instrs, find + 1, write, None) {
        return None;
    }
    match first_stop(instrs, Some(class), None, find + 1) {
        Some(stop) => Some(LeftOut {
            find: find as u32,
            write: write as u32,
            stop,
            class,
        }),
        None => None,
    }
}

/// The word that is stored at a place after a find, if it may be left out, with the first stop
/// without.
fn left_out_by(instrs: &[Instr], find: usize, write: usize) -> Option<LeftOut>
    requires most { length instrs.now ≤ instr_limit }
    requires closed { StaysWithin instrs.now }
    requires finds { IsFind instrs.now find }
    requires there { write < length instrs.now }
    ensures { MatchOption result (HasLeftOut instrs.now find write → ⊥)
        (IsFirstOfWrite instrs.now find write) }
{
    if write <= find {
        return None;
    }
    match frame_class(instrs[write].may()) {
        Some(class) => stop_without(instrs, find, write, class),
        None => None,
    }
}

/// Whether it may be.
fn is_left_out_by(instrs: &[Instr], find: usize, write: usize) -> bool
    requires most { length instrs.now ≤ instr_limit }
    requires closed { StaysWithin instrs.now }
    requires finds { IsFind instrs.now find }
    requires there { write < length instrs.now }
    ensures { IsTrue result ↔ HasLeftOut instrs.now find write }
{
    match left_out_by(instrs, find, write) {
        Some(_) => true,
        None => false,
    }
}

/// The first store after a find of a word that may be left out.
fn first_write(instrs: &[Instr], find: usize) -> Option<u32>
    requires most { length instrs.now ≤ instr_limit }
    requires closed { StaysWithin instrs.now }
    requires finds { IsFind instrs.now find }
    ensures { IsFirst (HasLeftOut instrs.now find) result }
{
    let mut write = 0;
    while write < instrs.len() {
        if is_left_out_by(instrs, find, write) {
            return Some(write as u32);
        }
        write += 1;
    }
    None
}

/// The first word that may be left out after a find.
fn left_out_of(instrs: &[Instr], find: usize) -> Option<LeftOut>
    requires most { length instrs.now ≤ instr_limit }
    requires closed { StaysWithin instrs.now }
    requires finds { IsFind instrs.now find }
    ensures { MatchOption result (HasLeftOutOf instrs.now find → ⊥)
        (IsFirstOfFind instrs.now find) }
{
    match first_write(instrs, find) {
        Some(write) => left_out_by(instrs, find, write as usize),
        None => None,
    }
}

/// Whether an instruction is a find after which a word may be left out.
fn has_left_out(instrs: &[Instr], find: usize) -> bool
    requires most { length instrs.now ≤ instr_limit }
    requires closed { StaysWithin instrs.now }
    requires there { find < length instrs.now }
    ensures { IsTrue result ↔ HasLeftOutOf instrs.now find }
{
    if !is_find(instrs, find) {
        return false;
    }
    match left_out_of(instrs, find) {
        Some(_) => true,
        None => false,
    }
}

/// The first such find.
fn first_find(instrs: &[Instr]) -> Option<u32>
    requires most { length instrs.now ≤ instr_limit }
    requires closed { StaysWithin instrs.now }
    ensures { IsFirst (HasLeftOutOf instrs.now) result }
{
    let mut find = 0;
    while find < instrs.len() {
        if has_left_out(instrs, find) {
            return Some(find as u32);
        }
        find += 1;
    }
    None
}

/// The first word of the frame that may be left out: of the least find, the least store after it,
/// and the least stop without.
pub(crate) fn first_left_out(instrs: &[Instr]) -> Option<LeftOut>
    requires most { length instrs.now ≤ instr_limit }
    requires closed { StaysWithin instrs.now }
    ensures { MatchOption result (HasNoLeftOut instrs.now) (IsFirstLeftOut instrs.now) }
{
    match first_find(instrs) {
        Some(find) => left_out_of(instrs, find as usize),
        None => None,
    }
}
