//! A listener that keeps what it hears.
ghost use Rattle.std.specs.Prelude.{◌≡◌, [], ◌∷◌, ◌++◌, map, ⊤};
ghost use Rattle.ppm_calls.specs.Acts.{act_at, shown_act};
ghost use Rattle.ppm_calls.specs.HeardLaws.{none_heard, more_heard};
ghost use Rattle.ppm_core.specs.Machine.{seen};
ghost use Rattle.ppm_lines.specs.Marks.{listed, marks_of};
ghost use Rattle.ppm_step.specs.Among.{IsTurnAmong};
ghost use Rattle.ppm_trace.specs.Trace.{along_turns};

use ppm_core::{Machine, Turn};
use ppm_lines::{Marks, marks_at};
use ppm_trace::Listener;
use ppm_words::NoMemory;
use std::alloc::Global;

/// An act of a run.
#[derive(Clone, Copy, Debug, PartialEq, Eq)]
pub struct HeardAct {
    /// Its number; acts count from 0.
    pub number: u64,
    /// Who made it, and what it was.
    pub turn: Turn,
    /// What it did that a reader of a run looks for, as `trace` marks it; the machine before the act
    /// decides that.
    pub marks: Marks,
}

/// The marks of a turn that isn't made yet.
fn marks_of(machine: &Machine, turn: Turn) -> Marks
    requires { IsTurnAmong (seen machine.now).shape.processors turn }
    ensures { listed result
        ≡ marks_of (seen machine.now).shape (seen machine.now).code (seen machine.now).state turn }
{
    let _ = machine.array_lengths();
    let shape = machine.shape();
    let local = machine.local(turn.processor);
    marks_at(machine.words(), &shape, machine.code(), local, turn.act)
}

/// What is kept of a turn that isn't made yet.
fn act_of(machine: &Machine, turn: Turn) -> HeardAct
    requires { IsTurnAmong (seen machine.now).shape.processors turn }
    ensures { (shown_act result ∷ []) ≡ act_at (seen machine.now) turn }
{
    let number = machine.turns();
    let marks = marks_of(machine, turn);
    HeardAct {
        number,
        turn,
        marks,
    }
}

/// Keeps each act that it hears, the oldest first.
#[derive(Clone, Copy, Debug, PartialEq, Eq)]
pub struct ActRecorder;

impl Listener for ActRecorder {
    type Notes = Vec<HeardAct>;

    ghost listens = { λ l m notes. ⊤ };

    ghost heard = { λ l m turns a b. map shown_act b.items ≡ map shown_act a.items ++ along_turns act_at m turns };

    fn hear(
        &self,
        alloc: Global,
        notes: &mut Vec<HeardAct>,
        machine: &Machine,
        turn: Turn,
    ) -> Result<(), NoMemory> {
        let _ = alloc;
        let act = act_of(machine, turn);
        notes.push(act)?;
        Ok(())
    }

    ghost rest = { λ l m a. none_heard a.items m };

    ghost on = { λ l m first more a b c d e. more_heard m first more a.items b.items c.items d e };
}
