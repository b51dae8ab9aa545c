//! Steps of strands, one strand at a time.
ghost use Rattle.std.specs.Prelude.{◌≡◌, ℕ, List, IfOk, length};
ghost use Rattle.ppm_interleaving.specs.Steps.{TurnsTo};
ghost use Rattle.ppm_racy.specs.declared.code.RacyParts.{RacyParts};
ghost use Rattle.ppm_interleaving.specs.declared.stepped.Stepped.TheVariants.{Goes};
ghost use Rattle.ppm_interleaving.specs.declared.strand.Strand.TheVariants.{Running as IsRunning, Waiting as IsWaiting};
ghost use Rattle.ppm_interleaving.specs.Shows.{finish_in};
ghost use Rattle.ppm_interleaving.specs.Stepping.{FailsTo, MakesStep, as_step};

use crate::ending::{Opened, go_on, join, open};
use crate::running::{Running, Touched};
use crate::strand::{Branches, Strand, Waiting};
use ppm_depth::Finish;
use ppm_racy::RacyCode;
use ppm_words::NoMemory;
use std::alloc::Global;

/// What a step of a strand comes to.
#[derive(Debug, Drop)]
pub enum Stepped {
    /// The strand is here now, unseen by others.
    Goes(Strand),
    /// It has changed an array word.
    Changed {
        running: Running,
        word: u64,
        was: u64,
        is: u64,
    },
    /// It has forked one branch, for which a frame waits.
    Calls(Running, Waiting),
    /// It has forked two.
    Forks(Running, Running, Waiting),
    /// It is over.
    Closes(Finish),
}

/// How the strand with a number is over, if it is.
pub(crate) fn finish_among(strands: &[Strand], strand: usize) -> Option<Finish>
    ensures { result ≡ finish_in strands.now strand }
{
    match strands.get(strand) {
        Some(found) => match found {
            Strand::Over(finish) => Some(*finish),
            Strand::Running(_) | Strand::Waiting(_) | Strand::Tells(_) => None,
        },
        None => None,
    }
}

/// What an end opens, as a step.
fn opened(opened: Opened) -> Stepped
    ensures { result ≡ as_step opened }
{
    match opened {
        Opened::GoesOn(running) => Stepped::Goes(Strand::Running(running)),
        Opened::Calls(callee, waiting) => Stepped::Calls(callee, waiting),
        Opened::Forks(left, right, waiting) => Stepped::Forks(left, right, waiting),
        Opened::Closes(finish) => Stepped::Closes(finish),
    }
}

/// A turn of a strand under way, in its capsule of the code.
fn turned(code: &RacyCode, running: Running, words: &mut Vec<u64>) -> Result<Touched, NoMemory>
    ensures { IfOk result (λ touched. TurnsTo code.now (length words.old.items) running words.old.items touched words.new.items) }
{
    match code.capsule(running.capsule) {
        Some(capsule) => running.turn(capsule.instrs.as_slice(), words),
        None => running.turn(&[], words),
    }
}

/// A step of a strand under way, beside the others.
fn run(
    alloc: Global,
    code: &RacyCode,
    running: Running,
    words: &mut Vec<u64>,
    strands: &[Strand],
) -> Result<Stepped, NoMemory>
    ensures { IfOk result (λ stepped. MakesStep code.now (IsRunning running) strands.now words.old.items stepped words.new.items) }
{
    let touched = turned(code, running, words)?;
    match touched {
        Touched::Goes(running) => Ok(Stepped::Goes(Strand::Running(running))),
        Touched::Changed {
            running,
            word,
            was,
            is,
        } => Ok(Stepped::Changed {
            running,
            word,
            was,
            is,
        }),
        Touched::Ends(own, end) => {
            let opens = open(alloc, code, own, end, strands.len())?;
            Ok(opened(opens))
        },
    }
}

/// A step of a frame that waits: it goes on if its branches are over.
fn wait(alloc: Global, waiting: Waiting, strands: &[Strand]) -> Result<Strand, NoMemory>
    ensures { IfOk result (λ now. (code : RacyParts) (words : List ℕ)
        → MakesStep code (IsWaiting waiting) strands.now words (Goes now) words) }
{
    match waiting.branches {
        Branches::Callee { to } => match finish_among(strands, waiting.first) {
            Some(finish) => go_on(alloc, waiting.own, waiting.capsule, to, finish),
            None => Ok(Strand::Waiting(waiting)),
        },
        Branches::Both { left_to, to } => match finish_among(strands, waiting.first) {
            Some(left) => match finish_among(strands, waiting.first.saturating_add(1)) {
                Some(right) => join(
                    alloc,
                    waiting.own,
                    waiting.capsule,
                    (left_to, to),
                    left,
                    right,
                ),
                None => Ok(Strand::Waiting(waiting)),
            },
            None => Ok(Strand::Waiting(waiting)),
        },
    }
}

/// A step of a strand, beside the others.
pub(crate) fn step(
    alloc: Global,
    code: &RacyCode,
    strand: Strand,
    words: &mut Vec<u64>,
    strands: &[Strand],
) -> Result<Stepped, NoMemory>
    ensures { IfOk result (λ stepped. MakesStep code.now strand strands.now words.old.items stepped words.new.items) }
{
    match strand {
        Strand::Running(running) => run(alloc, code, running, words, strands),
        Strand::Waiting(waiting) => Ok(Stepped::Goes(wait(alloc, waiting, strands)?)),
        Strand::Tells(finish) => Ok(Stepped::Closes(finish)),
        Strand::Over(finish) => Ok(Stepped::Goes(Strand::Over(finish))),
    }
}

/// Where a strand is after a soft fault.
pub(crate) fn failed(alloc: Global, strand: Strand) -> Strand
    ensures { FailsTo strand result }
{
    match strand {
        Strand::Running(running) => Strand::Running(running.failed(alloc)),
        Strand::Waiting(waiting) => Strand::Waiting(waiting),
        Strand::Tells(finish) => Strand::Tells(finish),
        Strand::Over(finish) => Strand::Over(finish),
    }
}
