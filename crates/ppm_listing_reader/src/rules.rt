//! The rules of a listing, each a test of one line at its place.
ghost use Rattle.std.specs.Prelude.{◌≡◌, ◌&&◌, ◌==◌, ◌+◌, ◌<◌, ◌^◌, nat_lt, nat_le, length, not};
ghost use Rattle.ppm_code.specs.Sizes.{slots_of as slots_in_code, frame_size as frame_words};
ghost use Rattle.ppm_code.specs.Sizes.{fork_size as fork_words};
ghost use Rattle.ppm_code.specs.Strands.{instrs_of};
ghost use Rattle.ppm_listing_reader.specs.Faults as rule;
ghost use Rattle.std.specs.List.{list_any};
ghost use Rattle.ppm_words.specs.Limits.{array_limit};

use crate::outline::Outline;
use crate::part::Part;
use crate::place::Place;
use ppm_code::{End, Instr};
use ppm_words::{CAPSULE_LIMIT, PROCEDURE_LIMIT, ROOM_LIMIT};

/// Whether a line of the source is out of range.
fn is_no_line(line: u32) -> bool
    ensures { result ≡ rule.is_no_line line }
{
    line == 0 || line > 1_048_577
}

/// Whether a slot is named that is not one of so many.
fn is_no_slot(slots: u32, slot: Option<u32>) -> bool
    ensures { result ≡ rule.is_no_slot slots slot }
{
    match slot {
        Some(slot) => slots <= slot,
        None => false,
    }
}

/// Whether an instruction is an end.
fn is_end(instr: Instr) -> bool
    ensures { result ≡ rule.is_end instr }
{
    matches!(instr, Instr::Ends(_))
}

/// The words of a frame of a procedure.
fn frame_size(code: &Outline, procedure: u32) -> u64
    ensures value { result ≡ frame_words code.now procedure }
    ensures bound { result < 2 ^ 33 }
{
    6 + u64::from(code.slots_of(procedure))
}

/// The words of a fork block.
fn fork_size(code: &Outline, left: u32, right: u32) -> u64
    ensures { result ≡ fork_words code.now left right }
{
    5 + frame_size(code, left) + frame_size(code, right)
}

/// Whether a number of an end of a procedure's capsule is out of range.
fn end_out_of_range(code: &Outline, procedure: u32, end: End) -> bool
    ensures { result ≡ rule.end_out_of_range code.now procedure end }
{
    match end {
        End::Next { .. } | End::Finish => false,
        End::Trap { line, .. } => is_no_line(line),
        End::Call { to, .. } => is_no_slot(code.slots_of(procedure), to),
        End::Fork {
            left_to,
            right_to,
            ..
        } => {
            let slots = code.slots_of(procedure);
            is_no_slot(slots, left_to) || is_no_slot(slots, right_to)
        }
    }
}

/// Whether an instruction names something out of its range.
fn instr_out_of_range(code: &Outline, procedure: u32, instr: Instr) -> bool
    ensures { result ≡ rule.instr_out_of_range code.now procedure instr }
{
    match instr {
        Instr::Add { line, .. }
        | Instr::Sub { line, .. }
        | Instr::Mul { line, .. }
        | Instr::Div { line, .. }
        | Instr::Rem { line, .. }
        | Instr::CutLeft { line, .. }
        | Instr::CutRight { line, .. }
        | Instr::Get { line, .. }
        | Instr::Put { line, .. } => is_no_line(line),
        Instr::LoadSlot { slot, .. } | Instr::StoreCur { slot, .. } => {
            code.slots_of(procedure) <= slot
        }
        Instr::Room { words } => words == 0 || words > ROOM_LIMIT,
        Instr::Ends(end) => end_out_of_range(code, procedure, end),
        Instr::Const { .. }
        | Instr::Move { .. }
        | Instr::Equal { .. }
        | Instr::NotEqual { .. }
        | Instr::Less { .. }
        | Instr::AtMost { .. }
        | Instr::Len { .. }
        | Instr::Give { .. }
        | Instr::BranchZero { .. }
        | Instr::BranchNonZero { .. }
        | Instr::StoreNew { .. } => false,
    }
}

/// Whether one of some arrays is past the last that there may be.
fn any_past_limit(arrays: &[u32]) -> bool
    ensures { result ≡ list_any (λ array. nat_le array_limit array) arrays.now }
{
    let mut left = arrays;
    while let [array, rest @ ..] = left {
        if 64 <= *array {
            return true;
        }
        left = rest;
    }
    false
}

/// Whether the root has more arrays than its procedure slots.
fn is_too_many(code: &Outline, procedure: u32, arrays: &[u32]) -> bool
    ensures { result
        ≡ (rule.is_procedure code.now procedure && nat_lt (slots_in_code code.now procedure) (length arrays.now)) }
{
    code.is_procedure(procedure) && (code.slots_of(procedure) as usize) < arrays.len()
}

/// 2: whether a number of a line is out of range.
pub(crate) fn is_out_of_range(code: &Outline, place: Place, part: &Part) -> bool
    ensures { result ≡ rule.is_out_of_range code.now place part.now }
{
    match part {
        Part::Version | Part::Capsule { .. } => false,
        Part::Root { procedure, arrays } => {
            any_past_limit(arrays.as_slice()) || is_too_many(code, *procedure, arrays.as_slice())
        }
        Part::Procedure { slots, .. } => *slots > 25,
        Part::Instr(instr) => match *instr {
            None => true,
            Some(instr) => match place {
                Place::Within { procedure, .. } => instr_out_of_range(code, procedure, instr),
                Place::AtVersion | Place::AtRoot | Place::AtProcedure { .. } => false,
            },
        },
    }
}

/// Whether a branch at a place of a capsule of so many instructions does not lead forward in it.
fn branches_badly(at: u32, length: usize, target: u32) -> bool
    ensures { result ≡ rule.branches_badly at length target }
{
    !(at < target && (target as usize) < length)
}

/// Where a branch leads; `None` where the instruction is none.
fn target_of(instr: Instr) -> Option<u32>
    ensures { result ≡ rule.target_of instr }
{
    match instr {
        Instr::BranchZero { target, .. } | Instr::BranchNonZero { target, .. } => Some(target),
        _ => None,
    }
}

/// Whether an instruction at a place of a capsule is a branch that does not lead forward in it.
fn instr_not_forward(code: &Outline, capsule: u32, at: u32, instr: Instr) -> bool
    ensures { result ≡ rule.instr_not_forward code.now capsule at instr }
{
    match target_of(instr) {
        Some(target) => branches_badly(at, code.instr_count(capsule), target),
        None => false,
    }
}

/// 3: whether a line is a branch that does not lead forward in its capsule.
pub(crate) fn is_not_forward(code: &Outline, place: Place, part: &Part) -> bool
    ensures { result ≡ rule.is_not_forward code.now place part.now }
{
    match place {
        Place::Within { capsule, at, .. } => match part {
            Part::Instr(instr) => match *instr {
                Some(instr) => instr_not_forward(code, capsule, at, instr),
                None => false,
            },
            Part::Version | Part::Root { .. } | Part::Procedure { .. } | Part::Capsule { .. } =>
                false,
        },
        Place::AtVersion | Place::AtRoot | Place::AtProcedure { .. } => false,
    }
}

/// Whether an instruction is the last of its capsule and no end.
fn is_last_without_end(code: &Outline, capsule: u32, at: u32, instr: Instr) -> bool
    ensures { result
        ≡ ((at + 1 == length (instrs_of code.now capsule)) && not (rule.is_end instr)) }
{
    at as usize + 1 == code.instr_count(capsule) && !is_end(instr)
}

/// 4: whether a capsule has no instructions, or its last one is no end.
pub(crate) fn is_no_end(code: &Outline, place: Place, part: &Part) -> bool
    ensures { result ≡ rule.is_no_end code.now place part.now }
{
    match part {
        Part::Capsule { number, .. } => code.instr_count(*number) == 0,
        Part::Instr(instr) => match *instr {
            Some(instr) => match place {
                Place::Within { capsule, at, .. } => is_last_without_end(code, capsule, at, instr),
                Place::AtVersion | Place::AtRoot | Place::AtProcedure { .. } => false,
            },
            None => false,
        },
        Part::Version | Part::Root { .. } | Part::Procedure { .. } => false,
    }
}

/// Whether there is no room, or not of a size where that is known.
fn is_no_room_of(room: Option<u32>, known: bool, size: u64) -> bool
    ensures { result ≡ rule.is_no_room_of room known size }
{
    match room {
        Some(words) => known && !(u64::from(words) == size),
        None => true,
    }
}

/// Whether a word is not within the room.
fn is_past_room(room: Option<u32>, offset: u32) -> bool
    ensures { result ≡ rule.is_past_room room offset }
{
    match room {
        Some(words) => words <= offset,
        None => true,
    }
}

/// Whether both procedures are there.
fn are_procedures(code: &Outline, left: u32, right: u32) -> bool
    ensures { result ≡ (rule.is_procedure code.now left && rule.is_procedure code.now right) }
{
    code.is_procedure(left) && code.is_procedure(right)
}

/// Whether an instruction asks for room after the first place, or takes room that there is not.
fn instr_has_wrong_room(code: &Outline, at: u32, room: Option<u32>, instr: Instr) -> bool
    ensures { result ≡ rule.instr_has_wrong_room code.now at room instr }
{
    match instr {
        Instr::Room { .. } => !(at == 0),
        Instr::StoreNew { offset, .. } => is_past_room(room, offset),
        Instr::Ends(End::Call { procedure, .. }) => {
            is_no_room_of(
                room,
                code.is_procedure(procedure),
                frame_size(code, procedure),
            )
        }
        Instr::Ends(End::Fork { left, right, .. }) => is_no_room_of(
            room,
            are_procedures(code, left, right),
            fork_size(code, left, right),
        ),
        _ => false,
    }
}

/// 5: whether a line breaks the rule on room.
pub(crate) fn has_wrong_room(code: &Outline, place: Place, part: &Part) -> bool
    ensures { result ≡ rule.has_wrong_room code.now place part.now }
{
    match place {
        Place::Within { at, room, .. } => match part {
            Part::Instr(instr) => match *instr {
                Some(instr) => instr_has_wrong_room(code, at, room, instr),
                None => false,
            },
            Part::Version | Part::Root { .. } | Part::Procedure { .. } | Part::Capsule { .. } =>
                false,
        },
        Place::AtVersion | Place::AtRoot | Place::AtProcedure { .. } => false,
    }
}

/// Whether an end of a procedure's capsule names what is not there.
fn end_not_there(code: &Outline, procedure: u32, end: End) -> bool
    ensures { result ≡ rule.end_not_there code.now procedure end }
{
    match end {
        End::Finish | End::Trap { .. } => false,
        End::Next { capsule } => !code.is_capsule_of(procedure, capsule),
        End::Call {
            procedure: callee,
            capsule,
            ..
        } => !(code.is_procedure(callee) && code.is_capsule_of(procedure, capsule)),
        End::Fork {
            left,
            right,
            capsule,
            ..
        } => {
            !(code.is_procedure(left)
                && (code.is_procedure(right) && code.is_capsule_of(procedure, capsule)))
        }
    }
}

/// Whether an instruction does.
fn instr_not_there(code: &Outline, procedure: u32, instr: Instr) -> bool
    ensures { result ≡ rule.instr_not_there code.now procedure instr }
{
    match instr {
        Instr::Ends(end) => end_not_there(code, procedure, end),
        _ => false,
    }
}

/// Whether the line of an instruction does, or is one too many in its capsule.
fn line_not_there(code: &Outline, procedure: u32, at: u32, instr: Option<Instr>) -> bool
    ensures { result ≡ rule.line_not_there code.now procedure at instr }
{
    match instr {
        Some(instr) => at >= 160 || instr_not_there(code, procedure, instr),
        None => at >= 160,
    }
}

/// 6: whether a line names what is not there, or is one too many.
pub(crate) fn is_not_there(code: &Outline, place: Place, part: &Part) -> bool
    ensures { result ≡ rule.is_not_there code.now place part.now }
{
    match part {
        Part::Version => false,
        Part::Root { procedure, .. } => !code.is_procedure(*procedure),
        Part::Procedure { number, entry, .. } => {
            *number >= PROCEDURE_LIMIT || !code.is_capsule_of(*number, *entry)
        }
        Part::Capsule { number, procedure } => {
            *number >= CAPSULE_LIMIT || !code.is_procedure(*procedure)
        }
        Part::Instr(instr) => match place {
            Place::Within { procedure, at, .. } => line_not_there(code, procedure, at, *instr),
            Place::AtVersion | Place::AtRoot | Place::AtProcedure { .. } => false,
        },
    }
}
