//! The first gap of a capsule, and of a code.
ghost use Rattle.std.specs.Prelude.{◌≡◌, ◌<◌, ◌≤◌, MatchOption, length};
ghost use Rattle.ppm_code.specs.Limits.{instr_limit};
ghost use Rattle.ppm_filled.specs.Filled.{IsFilledOnPaths};
ghost use Rattle.ppm_gaps.specs.Gaps.{IsFilledIn, AreFilledOnPaths, IsFirstGap, IsFirstGapIn, IsFirstGapOf};
ghost use Rattle.ppm_gaps.specs.Stops.{StaysWithin};

use crate::blocks::{OtherBlock, first_other};
use crate::hanging::first_hung;
use crate::left_out::{LeftOut, first_left_out};
use crate::unbuilt::{Unbuilt, first_unbuilt};
use ppm_code::{Code, Instr};

/// What keeps a capsule from being filled. All places count from 0.
#[derive(Clone, Copy, Debug, PartialEq, Eq)]
pub enum Gap {
    /// A word of the frame that may be left as it is, though it may be stored after a find.
    LeftOut(LeftOut),
    /// A word of the new block that some path does not store.
    Unbuilt(Unbuilt),
    /// Ends that build different blocks.
    OtherBlock(OtherBlock),
    /// A trap, at this place, that hangs on a find.
    Hung(u32),
}

/// A gap of a capsule of a code. Capsules count from 0.
#[derive(Clone, Copy, Debug, PartialEq, Eq)]
pub struct CapsuleGap {
    pub capsule: u32,
    pub gap: Gap,
}

/// The first gap of a capsule: a word that is left out before one that is not built, that before
/// ends that build different blocks, and these before a trap that hangs on a find. `None` comes
/// exactly where the capsule is filled, as its paths tell.
fn gap_in(instrs: &[Instr]) -> Option<Gap>
    requires most { length instrs.now ≤ instr_limit }
    requires closed { StaysWithin instrs.now }
    ensures { MatchOption result (IsFilledOnPaths instrs.now) (IsFirstGap instrs.now) }
{
    if let Some(left_out) = first_left_out(instrs) {
        return Some(Gap::LeftOut(left_out));
    }
    if let Some(unbuilt) = first_unbuilt(instrs) {
        return Some(Gap::Unbuilt(unbuilt));
    }
    if let Some(other) = first_other(instrs) {
        return Some(Gap::OtherBlock(other));
    }
    match first_hung(instrs) {
        Some(at) => Some(Gap::Hung(at)),
        None => None,
    }
}

/// The first gap of the capsule with a number.
fn gap_of(code: &Code, number: usize) -> Option<CapsuleGap>
    requires { number < length code.now.capsules }
    ensures { MatchOption result (IsFilledIn code.now number) (IsFirstGapIn code.now number) }
{
    let parts = code.parts();
    let capsule = &parts.capsules.as_slice()[number];
    match gap_in(capsule.instrs.as_slice()) {
        Some(gap) => Some(CapsuleGap {
            capsule: number as u32,
            gap,
        }),
        None => None,
    }
}

/// The first gap of a code: of the least capsule that has one, the first there. `None` comes
/// exactly where each capsule is filled, as its paths tell. No memory is taken.
pub fn first_gap(code: &Code) -> Option<CapsuleGap>
    ensures { MatchOption result (AreFilledOnPaths code.now) (IsFirstGapOf code.now) }
{
    let count = code.parts().capsules.as_slice().len();
    let mut number = 0;
    while number < count {
        if let Some(gap) = gap_of(code, number) {
            return Some(gap);
        }
        number += 1;
    }
    None
}
