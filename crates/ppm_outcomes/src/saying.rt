//! What is answered after a run, by the finish word: these arrays with their values, the trap, or
//! why there are none. `Err` comes only where memory is refused.
ghost use Rattle.std.specs.Prelude.{◌≡◌, IfOk, length, map, option_map};
ghost use Rattle.ppm_core.specs.Machine.{seen};
ghost use Rattle.ppm_loading.specs.Says.{IsTheOne};
ghost use Rattle.ppm_saved.specs.Names.{lengths_of};
ghost use Rattle.ppm_outcomes.specs.CountedRuns.{answer_of};
ghost use Rattle.ppm_outcomes.specs.Replays.{with_tally};
ghost use Rattle.ppm_outcomes.specs.Replays.{IsSaid as IsSaidOfReplay, tally_of};
ghost use Rattle.ppm_outcomes.specs.Resumes.{named};
ghost use Rattle.ppm_outcomes.specs.Runs.{IsSaid as IsSaidOfRun, SaysWhyNone};

use crate::names::arrays_of_names;
use ppm_answers::{Answer, Came, Ran, Tally};
use ppm_cells::{Ending, Finish, UNKNOWN_PLACE};
use ppm_core::Machine;
use ppm_loading::{arrays_of, arrays_of_closed};
use ppm_saved::Names;
use ppm_table::Closed;
use ppm_words::{NamedArray, NoMemory};
use std::alloc::Global;

/// What is answered after a run in which processors obey.
pub fn run_answer(alloc: Global, closed: &Closed, arrays: &[NamedArray]) -> Result<Answer, NoMemory>
    requires lengths { closed.now.array_lengths ≡ map (λ a. length a.values) arrays.now }
    ensures { IfOk result (IsTheOne (IsSaidOfRun closed.now.shape closed.now.array_lengths arrays.now closed.now.words)) }
{
    if let Some(answer) = unended_answer(closed) {
        return Ok(answer);
    }
    Ok(Answer::Ended(arrays_of_closed(alloc, closed, arrays)?))
}

/// The answer after a run from a saved state, with the arrays of its names.
pub fn resumed_answer(alloc: Global, closed: &Closed, names: &Names) -> Result<Answer, NoMemory>
    requires lengths { closed.now.array_lengths ≡ lengths_of names.now }
    ensures { IfOk result (IsTheOne (IsSaidOfRun closed.now.shape closed.now.array_lengths (named names.now) closed.now.words)) }
{
    if let Some(answer) = unended_answer(closed) {
        return Ok(answer);
    }
    Ok(Answer::Ended(arrays_of_names(alloc, closed, names.as_slice())?))
}

/// Why a run in which processors obey has no arrays, by the finish word; `None` where it has them.
fn unended_answer(closed: &Closed) -> Option<Answer>
    ensures { SaysWhyNone closed.now.shape closed.now.array_lengths closed.now.words result }
{
    match closed.outcome() {
        Ending::With(finish) => match finish {
            Finish::Ended => None,
            Finish::Trapped { trap, line } => Some(Answer::Trapped(trap, line)),
            Finish::OutOfRoom { place } => Some(Answer::OutOfRoom(place)),
            Finish::OutOfTurns { processor } => Some(Answer::OutOfTurns(processor)),
            Finish::Broken { place } => Some(Answer::Broken(place)),
            // Of no run, as what follows.
            Finish::Stopped | Finish::Unset => Some(Answer::Broken(UNKNOWN_PLACE)),
        },
        Ending::NotYet | Ending::Unknown => Some(Answer::Broken(UNKNOWN_PLACE)),
    }
}

/// What a run in which processors obey came to: its answer, without counts.
pub fn run_came(alloc: Global, closed: &Closed, arrays: &[NamedArray]) -> Result<Ran, NoMemory>
    requires lengths { closed.now.array_lengths ≡ map (λ a. length a.values) arrays.now }
    ensures { IfOk result (λ ran. IsTheOne (IsSaidOfRun closed.now.shape closed.now.array_lengths arrays.now closed.now.words) (answer_of ran)) }
{
    if let Some(ran) = why_unended(closed) {
        return Ok(ran);
    }
    Ok(Ran::Ended(arrays_of_closed(alloc, closed, arrays)?))
}

/// What a run from a saved state came to, with the arrays of its names.
pub fn resumed_came(alloc: Global, closed: &Closed, names: &Names) -> Result<Ran, NoMemory>
    requires lengths { closed.now.array_lengths ≡ lengths_of names.now }
    ensures { IfOk result (λ ran. IsTheOne (IsSaidOfRun closed.now.shape closed.now.array_lengths (named names.now) closed.now.words) (answer_of ran)) }
{
    if let Some(ran) = why_unended(closed) {
        return Ok(ran);
    }
    Ok(Ran::Ended(arrays_of_names(alloc, closed, names.as_slice())?))
}

/// Why a run in which processors obey has no arrays, by the finish word; `None` where it has them.
fn why_unended(closed: &Closed) -> Option<Ran>
    ensures { SaysWhyNone closed.now.shape closed.now.array_lengths closed.now.words (option_map answer_of result) }
{
    match closed.outcome() {
        Ending::With(finish) => match finish {
            Finish::Ended => None,
            Finish::Trapped { trap, line } => Some(Ran::Trapped(trap, line)),
            Finish::OutOfRoom { place } => Some(Ran::OutOfRoom(place)),
            Finish::OutOfTurns { processor } => Some(Ran::OutOfTurns(processor)),
            Finish::Broken { place } => Some(Ran::Broken(place)),
            // Of no run, as what follows.
            Finish::Stopped | Finish::Unset => Some(Ran::Broken(UNKNOWN_PLACE)),
        },
        Ending::NotYet | Ending::Unknown => Some(Ran::Broken(UNKNOWN_PLACE)),
    }
}

/// What is answered after a replay of at most so many acts.
pub fn replay_answer(
    alloc: Global,
    machine: &Machine,
    arrays: &[NamedArray],
    turns: u64,
) -> Result<Answer, NoMemory>
    requires lengths { (seen machine.now).array_lengths ≡ map (λ a. length a.values) arrays.now }
    ensures { IfOk result (IsTheOne (IsSaidOfReplay turns (seen machine.now) arrays.now)) }
{
    let tally = Tally {
        forks: machine.forks(),
        takes: machine.takes(),
    };
    match machine.outcome() {
        Ending::NotYet => Ok(Answer::Unfinished(turns)),
        Ending::With(finish) => match finish {
            Finish::Ended => Ok(Answer::EndedWith(arrays_of(alloc, machine, arrays)?, tally)),
            Finish::Trapped { trap, line } => Ok(Answer::TrappedWith(trap, line, tally)),
            Finish::OutOfRoom { place } => Ok(Answer::OutOfRoom(place)),
            Finish::OutOfTurns { processor } => Ok(Answer::OutOfTurns(processor)),
            Finish::Broken { place } => Ok(Answer::Broken(place)),
            // Of no run, as are unknown words.
            Finish::Stopped | Finish::Unset => Ok(Answer::Broken(UNKNOWN_PLACE)),
        },
        Ending::Unknown => Ok(Answer::Broken(UNKNOWN_PLACE)),
    }
}

/// What a replay of at most so many acts came to: its answer, without the tally.
pub fn replay_came(
    alloc: Global,
    machine: &Machine,
    arrays: &[NamedArray],
    turns: u64,
) -> Result<Came, NoMemory>
    requires lengths { (seen machine.now).array_lengths ≡ map (λ a. length a.values) arrays.now }
    ensures { IfOk result (λ came. IsTheOne (IsSaidOfReplay turns (seen machine.now) arrays.now) (with_tally came (tally_of (seen machine.now)))) }
{
    match machine.outcome() {
        Ending::NotYet => Ok(Came::Unfinished(turns)),
        Ending::With(finish) => match finish {
            Finish::Ended => Ok(Came::Ended(arrays_of(alloc, machine, arrays)?)),
            Finish::Trapped { trap, line } => Ok(Came::Trapped(trap, line)),
            Finish::OutOfRoom { place } => Ok(Came::OutOfRoom(place)),
            Finish::Broken { place } => Ok(Came::Broken(place)),
            // Of no replay, as are unknown words.
            Finish::OutOfTurns { .. } => Ok(Came::Broken(UNKNOWN_PLACE)),
            Finish::Stopped | Finish::Unset => Ok(Came::Broken(UNKNOWN_PLACE)),
        },
        Ending::Unknown => Ok(Came::Broken(UNKNOWN_PLACE)),
    }
}
