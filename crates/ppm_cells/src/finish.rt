//! How a run, or a strand, came to its end.
ghost use Rattle.std.specs.Prelude.{◌≡◌, ◌↔◌, ◌^◌, ◌<◌, [], ◌∷◌, IfSome, IsTrue};
ghost use Rattle.ppm_cells.specs.Fields.{number_of};
ghost use Rattle.ppm_cells.specs.Exact.{IsWhatPacksTo};
ghost use Rattle.ppm_cells.specs.Finish.{trap_number, trap_with, fields_with, finish_read};
ghost use Rattle.ppm_cells.specs.Finish.{finish_word, finish_of, IsFinish, IsOutcome};

use crate::field::{bits_of, joined};
use ppm_words::{PROCESSOR_LIMIT, Trap};

/// Stands for the place of a processor that does not know its place.
pub const UNKNOWN_PLACE: u32 = PROCESSOR_LIMIT;

/// What the finish word says of a run, and an outcome word of a strand. A strand's outcome is
/// `Ended` or `Trapped`, and its word is 0 (`Unset`) until it has one. Lines count from 1 and are
/// below 2^26; processors and places are below 64.
#[derive(Clone, Copy, Debug, PartialEq, Eq)]
pub enum Finish {
    /// It has not come to an end.
    Unset,
    /// It came to its own end.
    Ended,
    /// It met a trap in this line.
    Trapped { trap: Trap, line: u32 },
    /// This processor has made all its turns.
    OutOfTurns { processor: u32 },
    /// The pool of this place is full.
    OutOfRoom { place: u32 },
    /// A watcher refused an event, so it was stopped.
    Stopped,
    /// This place met words that come of no run; `UNKNOWN_PLACE` where it isn't known.
    Broken { place: u32 },
}

/// A trap's number, from 1 to 4.
fn number_of_trap(trap: Trap) -> u64
    ensures value { result ≡ trap_number trap }
    ensures bound { result < 2 ^ 3 }
{
    match trap {
        Trap::Overflow => 1,
        Trap::DivZero => 2,
        Trap::Index => 3,
        Trap::Split => 4,
    }
}

/// The trap with a number.
fn trap_of(number: u64) -> Option<Trap>
    ensures { result ≡ trap_with number }
{
    match number {
        1 => Some(Trap::Overflow),
        2 => Some(Trap::DivZero),
        3 => Some(Trap::Index),
        4 => Some(Trap::Split),
        _ => None,
    }
}

/// The word of a finish word's three fields.
#[tactic(auto, unfolding(crate::specs::Fields::number_of))]
fn word_with(tag: u64, trap: u64, number: u32) -> u64
    requires tag { tag < 2 ^ 3 }
    requires trap { trap < 2 ^ 3 }
    requires number { number < 2 ^ 26 }
    ensures { result ≡ number_of (fields_with tag trap number) }
{
    joined(joined(u64::from(number), 3, trap), 3, tag)
}

/// The finish in a word's fields, whatever its unused bits are.
fn read(word: u64) -> Option<Finish>
    ensures value { result ≡ finish_read word }
    ensures fits { IfSome result IsFinish }
{
    let number = bits_of(word, 6, 26) as u32;
    match bits_of(word, 0, 3) {
        0 => Some(Finish::Unset),
        1 => Some(Finish::Ended),
        2 => {
            if number == 0 {
                return None;
            }
            let trap = trap_of(bits_of(word, 3, 3))?;
            Some(Finish::Trapped { trap, line: number })
        }
        3 => if number >= 64 {
            None
        } else {
            Some(Finish::OutOfTurns { processor: number })
        },
        4 => if number >= 64 {
            None
        } else {
            Some(Finish::OutOfRoom { place: number })
        },
        6 => Some(Finish::Stopped),
        7 => if number >= 66 {
            None
        } else {
            Some(Finish::Broken {
                place: number.saturating_sub(1),
            })
        },
        _ => None,
    }
}

impl Finish {
    /// Whether a strand may end so: by its own end or a trap.
    pub fn is_outcome(&self) -> bool
        ensures { IsTrue result ↔ IsOutcome self.now }
    {
        match self {
            Finish::Ended | Finish::Trapped { .. } => true,
            Finish::Unset
            | Finish::OutOfTurns { .. }
            | Finish::OutOfRoom { .. }
            | Finish::Stopped
            | Finish::Broken { .. } => false,
        }
    }

    /// The word of the finish: 0 for `Unset`.
    pub fn pack(&self) -> u64
        requires { IsFinish self.now }
        ensures { result ≡ finish_word self.now }
    {
        match *self {
            Finish::Unset => word_with(0, 0, 0),
            Finish::Ended => word_with(1, 0, 0),
            Finish::Trapped { trap, line } => word_with(2, number_of_trap(trap), line),
            Finish::OutOfTurns { processor } => word_with(3, 0, processor),
            Finish::OutOfRoom { place } => word_with(4, 0, place),
            Finish::Stopped => word_with(6, 0, 0),
            Finish::Broken { place } => word_with(7, 0, place + 1),
        }
    }

    /// What a word stands for; `None` exactly for a word that no finish packs to.
    #[tactic(auto, unfolding(crate::specs::Exact::unpacked))]
    pub fn unpack(word: u64) -> Option<Finish>
        ensures value { result ≡ finish_of word }
        ensures exactly { IsWhatPacksTo finish_word IsFinish word result }
        ensures fits { IfSome result IsFinish }
    {
        let finish = read(word)?;
        (finish.pack() == word).then_some(finish)
    }
}
