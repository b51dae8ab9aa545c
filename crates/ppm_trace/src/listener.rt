//! Who hears the acts of a run.
ghost use Rattle.std.specs.Prelude.{◌≡◌, ◌<◌, ◌^◌, ◌++◌, [], ◌∷◌, List, OnOk};
ghost use Rattle.ppm_core.specs.Machine.{seen};
ghost use Rattle.ppm_core.specs.Situation.{Situation, run_on, turned};
ghost use Rattle.ppm_step.specs.Among.{IsTurnAmong};
ghost use Rattle.ppm_step.specs.declared.turn.Turn.{Turn};

use ppm_core::Machine;
use ppm_step::Turn;
use ppm_words::NoMemory;
use std::alloc::Global;

/// Who hears the turns of a run, each before it is made. What a listener only reads is `self`; what
/// it makes of the turns are its notes.
pub trait Listener {
    type Notes;

    /// With these notes it can hear a turn of this machine.
    ghost listens: { Self → Situation → Self.Notes → Type 0 };

    /// By these turns, of which the first is one of this machine, the first notes became the second.
    ghost heard: { Self → Situation → List Turn → Self.Notes → Self.Notes → Type 0 };

    /// Hears a turn that isn't made yet. `Err` only where memory is refused.
    fn hear(
        &self,
        alloc: Global,
        notes: &mut Self::Notes,
        machine: &Machine,
        turn: Turn,
    ) -> Result<(), NoMemory>
        requires among { IsTurnAmong (seen machine.now).shape.processors turn }
        requires turns { (seen machine.now).turns < 2 ^ 62 }
        requires listens { listens self.now (seen machine.now) notes.old }
        ensures heard { OnOk result (heard self.now (seen machine.now) (turn
            ∷ []) notes.old notes.new) }
        ensures listens { OnOk result (listens self.now (turned (seen machine.now) turn) notes.new) };

    /// Where no turn was heard, the notes are as they were.
    ghost rest: { (l : Self) (m : Situation) (a : Self.Notes) → heard l m [] a a };

    /// Turns that are heard after turns are turns that are heard.
    ghost on: { (l : Self) (m : Situation) (first more : List Turn) (a b c : Self.Notes)
        → heard l m first a b → heard l (run_on m first) more b c → heard l m (first ++ more) a c };
}
