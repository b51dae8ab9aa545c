//! The steps that a processor makes in a row in a capsule of a frame, with registers and numbers
//! alone between them.
ghost use Rattle.std.specs.Prelude.{◌≡◌, ◌≤◌, ◌<◌, true};
ghost use Rattle.ppm_cells.specs.Memory.{AreWordsOf, read};
ghost use Rattle.ppm_cells.specs.declared.cell.Cell.TheVariants.{FinishWord};
ghost use Rattle.ppm_code.specs.Locations.{location_of};
ghost use Rattle.ppm_core.specs.Rounds.{HasFound, HasPut, LedTo, TurnedTo, steps_by};
ghost use Rattle.ppm_step.specs.Facts.{IsHome, IsSeat};
ghost use Rattle.ppm_step.specs.Frames.{cell_of};

use crate::acts::{finish_word, found_by, store};
use ppm_cells::{Cell, Shape};
use ppm_code::{Code, Instr, Location, Reached, Step, reach};
use ppm_engine::address_of;
use ppm_step::{Home, Running, Seat, Stage, Want, location_is_there};

/// How a capsule goes on after some steps.
#[derive(Clone, Copy, Debug, PartialEq, Eq)]
pub(crate) enum Way {
    /// With this instruction.
    Made(usize),
    /// It ends there, or asks for words. This instruction is the one after it.
    Stops(usize, Reached),
    /// What comes next isn't there.
    Breaks,
}

/// How far a capsule came: so many steps were made, each of them work, and it goes on this way.
#[derive(Clone, Copy, Debug, PartialEq, Eq)]
pub(crate) struct Stretch {
    pub(crate) made: u64,
    pub(crate) way: Way,
}

/// What came of the stores with which a frame goes round.
#[derive(Clone, Copy, Debug, PartialEq, Eq)]
pub(crate) enum Turned {
    /// After so many of them the next one isn't there.
    Breaks(u64),
    /// Both were made.
    Round,
}

/// The word of a location; `None` where it isn't there.
#[inline(always)]
fn load_at(words: &Vec<u64>, shape: &Shape, home: &Home, location: Location) -> Option<u64>
    requires words { AreWordsOf shape.now words.now.items }
    requires home { IsHome home.now }
    ensures { HasFound shape.now words.now.items (cell_of home.now (location_of location)) result }
{
    if !location_is_there(shape, home, location) {
        return None;
    }
    let at = address_of(shape, home, location);
    Some(found_by(words, shape, Want::Loads(at)))
}

/// Stores a word at a location, if that is there, and tells whether it is.
#[inline(always)]
fn store_at(words: &mut Vec<u64>, shape: &Shape, home: &Home, location: Location, word: u64) -> bool
    requires words { AreWordsOf shape.now words.old.items }
    requires home { IsHome home.now }
    ensures put { HasPut shape.now words.old.items words.new.items (cell_of home.now (location_of location)) word result }
    ensures count { AreWordsOf shape.now words.new.items }
{
    if !location_is_there(shape, home, location) {
        return false;
    }
    let at = address_of(shape, home, location);
    store(words, shape, Want::Stores(at, word));
    true
}

/// Does the register work up to the next step, and makes that.
#[inline(always)]
fn step_at(
    words: &mut Vec<u64>,
    shape: &Shape,
    code: &Code,
    seat: &Seat,
    home: &Home,
    instrs: &[Instr],
    registers: &mut [u64; 64],
    at: usize,
) -> Way
    requires words { AreWordsOf shape.now words.old.items }
    requires home { IsHome home.now }
    requires finish { read shape.now words.old.items FinishWord ≡ 0 }
    ensures led { LedTo shape.now code.now seat.now home.now instrs.now at registers.old registers.new words.old.items words.new.items (steps_by result) result }
    ensures count { AreWordsOf shape.now words.new.items }
{
    let _ = code.parts().root;
    let stop = reach(instrs, u64::from(shape.arrays), at, registers);
    match stop.what {
        Reached::Before(Step::Loads(location, to)) => match load_at(words, shape, home, location) {
            Some(found) => {
                registers[usize::from(to.index)] = found;
                Way::Made(stop.next)
            }
            None => Way::Breaks,
        },
        Reached::Before(Step::Stores(location, word)) => {
            if store_at(words, shape, home, location, word) {
                Way::Made(stop.next)
            } else {
                Way::Breaks
            }
        }
        Reached::Before(Step::Asks(_)) | Reached::AtEnd(_) => Way::Stops(stop.next, stop.what),
    }
}

/// Goes through a capsule from an instruction on, at most so many steps, up to its end, while the
/// finish word is 0.
#[inline(always)]
pub(crate) fn go_along(
    words: &mut Vec<u64>,
    shape: &Shape,
    code: &Code,
    seat: &Seat,
    home: &Home,
    instrs: &[Instr],
    registers: &mut [u64; 64],
    from: usize,
    most: u64,
) -> Stretch
    requires words { AreWordsOf shape.now words.old.items }
    requires home { IsHome home.now }
    ensures few { result.made ≤ most }
    ensures led { LedTo shape.now code.now seat.now home.now instrs.now from registers.old registers.new words.old.items words.new.items result.made result.way }
    ensures count { AreWordsOf shape.now words.new.items }
{
    let mut at = from;
    let mut made = 0;
    while made < most {
        if finish_word(words, shape) != 0 {
            return Stretch {
                made,
                way: Way::Made(at),
            };
        }
        match step_at(words, shape, code, seat, home, instrs, registers, at) {
            Way::Made(next) => {
                at = next;
                made += 1;
            }
            Way::Stops(next, what) => {
                return Stretch {
                    made,
                    way: Way::Stops(next, what),
                };
            }
            Way::Breaks => {
                return Stretch {
                    made,
                    way: Way::Breaks,
                };
            }
        }
    }
    Stretch {
        made,
        way: Way::Made(at),
    }
}

/// Stores the number of the capsule with which the frame goes on, and the restart word with which
/// it does, where both are there.
#[inline(always)]
pub(crate) fn go_round(
    words: &mut Vec<u64>,
    shape: &Shape,
    code: &Code,
    seat: &Seat,
    home: &Home,
    capsule: u32,
) -> Turned
    requires words { AreWordsOf shape.now words.old.items }
    requires seat { IsSeat shape.now seat.now }
    requires home { IsHome home.now }
    requires finish { read shape.now words.old.items FinishWord ≡ 0 }
    ensures turned { TurnedTo shape.now code.now seat.now home.now capsule words.old.items words.new.items result }
    ensures count { AreWordsOf shape.now words.new.items }
{
    let _ = code.parts().root;
    let running = Running {
        seat: *seat,
        home: *home,
        capsule,
        next: 0,
        stage: Stage::Filled,
    };
    if !running.next_is_there(shape, 0) {
        return Turned::Breaks(0);
    }
    store(
        words,
        shape,
        Want::Stores(home.header(), u64::from(capsule)),
    );
    if !running.next_is_there(shape, 1) {
        return Turned::Breaks(1);
    }
    let at = shape.address(Cell::RestartWord { place: seat.place });
    let restart = running.restart(home.goes_round());
    store(words, shape, Want::Stores(at, restart.pack()));
    Turned::Round
}
