//! Words of the new block that some path does not store.
ghost use Rattle.std.specs.Prelude.{◌≡◌, ◌↔◌, ◌<◌, ◌≤◌, ℕ, IsTrue, MatchOption, length};
ghost use Rattle.ppm_code.specs.Limits.{instr_limit};
ghost use Rattle.ppm_code.specs.declared.class.Class.TheVariants.{New};
ghost use Rattle.ppm_code.specs.declared.class.May.TheVariants.{Write};
ghost use Rattle.ppm_code.specs.Paths.{Does};
ghost use Rattle.ppm_war.specs.Search.{IsFirst};
ghost use Rattle.ppm_gaps.specs.Gaps.{HasNoUnbuilt, IsFirstUnbuilt};
ghost use Rattle.ppm_gaps.specs.Unbuilt.{HasUnbuilt, IsFirstStopWithout};
ghost use Rattle.ppm_gaps.specs.Stops.{StaysWithin};

use crate::stops::first_stop;
use ppm_code::{Class, Instr, May};

/// A word of the new block that is stored at `write`, while some path comes to the end at `stop`
/// without. Places count from 0.
#[derive(Clone, Copy, Debug, PartialEq, Eq)]
pub struct Unbuilt {
    pub write: u32,
    pub stop: u32,
    pub word: u32,
}

/// The word of the new block that an instruction may write.
fn new_word(may: May) -> Option<u32>
    ensures { MatchOption result ((word : ℕ) → may ≡ Write (New word) → ⊥)
        (λ word. may ≡ Write (New word)) }
{
    match may {
        May::Write(class) => match class {
            Class::New(word) => Some(word),
            Class::Slot(_) => None,
            Class::Value => None,
            Class::Room => None,
            Class::Array => None,
        },
        May::Work => None,
        May::Read(_) => None,
        May::Branch(_) => None,
        May::Stop => None,
    }
}

/// The first stop without a word that is stored at a place.
fn stop_without(instrs: &[Instr], write: usize, word: u32) -> Option<Unbuilt>
    requires most { length instrs.now ≤ instr_limit }
    requires closed { StaysWithin instrs.now }
    requires there { write < length instrs.now }
    requires writes { Does instrs.now write (Write (New word)) }
    ensures { MatchOption result (HasUnbuilt instrs.now write → ⊥)
        (IsFirstStopWithout instrs.now write) }
{
    match first_stop(instrs, Some(Class::New(word)), None, 0) {
        Some(stop) => Some(Unbuilt {
            write: write as u32,
            stop,
            word,
        }),
        None => None,
    }
}

/// The word of the new block that is stored at a place, if some path does not store it, with the
/// first stop without.
fn unbuilt_by(instrs: &[Instr], write: usize) -> Option<Unbuilt>
    requires most { length instrs.now ≤ instr_limit }
    requires closed { StaysWithin instrs.now }
    requires there { write < length instrs.now }
    ensures { MatchOption result (HasUnbuilt instrs.now write → ⊥)
        (IsFirstStopWithout instrs.now write) }
{
    match new_word(instrs[write].may()) {
        Some(word) => stop_without(instrs, write, word),
        None => None,
    }
}

/// Whether some path does not store it.
fn is_unbuilt_by(instrs: &[Instr], write: usize) -> bool
    requires most { length instrs.now ≤ instr_limit }
    requires closed { StaysWithin instrs.now }
    requires there { write < length instrs.now }
    ensures { IsTrue result ↔ HasUnbuilt instrs.now write }
{
    match unbuilt_by(instrs, write) {
        Some(_) => true,
        None => false,
    }
}

/// The first store of a word that some path does not store.
fn first_write(instrs: &[Instr]) -> Option<u32>
    requires most { length instrs.now ≤ instr_limit }
    requires closed { StaysWithin instrs.now }
    ensures { IsFirst (HasUnbuilt instrs.now) result }
{
    let mut write = 0;
    while write < instrs.len() {
        if is_unbuilt_by(instrs, write) {
            return Some(write as u32);
        }
        write += 1;
    }
    None
}

/// The first word that some path does not store: of the least store, and the least stop without.
pub(crate) fn first_unbuilt(instrs: &[Instr]) -> Option<Unbuilt>
    requires most { length instrs.now ≤ instr_limit }
    requires closed { StaysWithin instrs.now }
    ensures { MatchOption result (HasNoUnbuilt instrs.now) (IsFirstUnbuilt instrs.now) }
{
    match first_write(instrs) {
        Some(write) => unbuilt_by(instrs, write as usize),
        None => None,
    }
}
