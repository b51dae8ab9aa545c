//! The command `replay` of a saved text.
ghost use Rattle.std.specs.Prelude.{◌≡◌, ◌≢◌, IfOk, None};
ghost use Rattle.ppm_ports.specs.Ports.{port};
ghost use Rattle.ppm_ports.specs.Outside.{ports};
ghost use Rattle.ppm_cells.specs.Finish.{finish_of};
ghost use Rattle.ppm_cli.specs.Words.{AreSavedReplayed};
ghost use Rattle.ppm_core.specs.Machine.{seen};
ghost use Rattle.ppm_outcomes.specs.Replays.{IsSaid, tally_of, with_tally};
ghost use Rattle.ppm_outcomes.specs.Resumes.{named, saved_finish, state_of};
ghost use Rattle.ppm_loading.specs.Says.{IsTheOne, arrays_from};
ghost use Rattle.ppm_saved.specs.Names.{lengths_of};
ghost use Rattle.ppm_legs.specs.SavedTexts.{HasText};
ghost use Rattle.ppm_legs.specs.SavedReplays.{ReplayMay, StateReplays};
ghost use Rattle.ppm_legs.specs.SavedReplayRows.{IsReplayed};

use crate::leg::leg;
use crate::saved_answers::saved_replays_have_one_answer;
use crate::saved_reading::read_leg;
use ppm_answers::{Answer, Came, Status, Tally, deliver};
use ppm_cells::{Ending, Finish, UNKNOWN_PLACE};
use ppm_cli::ReplaySavedOptions;
use ppm_core::Machine;
use ppm_loading::to_values;
use ppm_outcomes::resume_laws;
use ppm_plan::Schedule;
use ppm_ports::{Sink, Source};
use ppm_saved::{NamedLength, Names, Saved};
use ppm_words::{Items, NamedArray, NoMemory};
use std::alloc::Global;

/// Goes on from the state of the saved text that is read, on a machine whose processors are fresh
/// and act as the schedule says, with at most so many acts: its arrays or its trap, and how many
/// forks and takes this run had, are written on `out`, why there are none on `err`. The schedule is
/// judged for as many processors as the state has.
pub fn replay_saved_command<S: Source, K: Sink, E: Sink>(
    alloc: Global,
    options: ReplaySavedOptions,
    schedule: &[u8],
    source: &mut S,
    out: &mut K,
    err: &mut E,
) -> Status
    requires options { AreSavedReplayed options }

    // An answer that the command's causes allow is delivered, and its rows hold.
    ensures { IsReplayed options schedule.now (ports (port S.left S.fault_count source.old source.new)
        (port K.written K.fault_count out.old out.new) (port E.written E.fault_count err.old err.new)) result }
{
    // The rows rest on these laws; the calls do nothing.
    saved_replays_have_one_answer();
    resume_laws();
    let answer = read_answer(alloc, options, schedule, source);
    deliver(alloc, &answer, out, err)
}

/// The answer of `replay`: the saved text is read first, and then the schedule.
fn read_answer<S: Source>(
    alloc: Global,
    options: ReplaySavedOptions,
    schedule: &[u8],
    source: &mut S,
) -> Answer
    requires options { AreSavedReplayed options }
    ensures { ReplayMay options schedule.now (port S.left S.fault_count source.old source.new) result }
{
    match read_leg(alloc, schedule, source) {
        Ok((saved, schedule)) => match replayed(alloc, options, saved, &schedule) {
            Ok(answer) => answer,
            Err(NoMemory) => Answer::NoMemory,
        },
        Err(answer) => answer,
    }
}

/// What a leg from a state comes to.
fn replayed(
    alloc: Global,
    options: ReplaySavedOptions,
    saved: Saved,
    schedule: &Schedule,
) -> Result<Answer, NoMemory>
    requires options { AreSavedReplayed options }
    requires processors { schedule.now.processors ≡ saved.shape.processors }
    requires stands { finish_of (saved_finish (state_of saved)) ≢ None }
    requires there { HasText (state_of saved) }
    ensures { IfOk result (StateReplays options schedule.now.items (state_of saved)) }
{
    // The call is for its contract: the schedule spares this processor, which makes acts until the
    // finish word is set.
    let _ = schedule.keeper();
    let gone = leg(alloc, saved, schedule, options.turns)?;
    let (machine, names) = gone;
    let answer = leg_answer(alloc, &machine, &names, options.turns)?;
    Ok(answer)
}

/// What is answered after a leg of at most so many acts, by the finish word.
fn leg_answer(
    alloc: Global,
    machine: &Machine,
    names: &Names,
    turns: u64,
) -> Result<Answer, NoMemory>
    requires lengths { (seen machine.now).array_lengths ≡ lengths_of names.now }
    ensures { IfOk result (IsTheOne (IsSaid turns (seen machine.now) (named names.now))) }
{
    let came = leg_came(alloc, machine, names, turns)?;
    let tally = tally_of(machine);
    Ok(answer_with(came, tally))
}

/// How many forks and takes a machine counts.
fn tally_of(machine: &Machine) -> Tally
    ensures { result ≡ tally_of (seen machine.now) }
{
    Tally {
        forks: machine.forks(),
        takes: machine.takes(),
    }
}

/// The answer that a leg came to this, with its forks and takes.
fn answer_with(came: Came, tally: Tally) -> Answer
    ensures { result ≡ with_tally came tally }
{
    match came {
        Came::Ended(arrays) => Answer::EndedWith(arrays, tally),
        Came::Trapped(trap, line) => Answer::TrappedWith(trap, line, tally),
        Came::Unfinished(acts) => Answer::Unfinished(acts),
        Came::OutOfRoom(place) => Answer::OutOfRoom(place),
        Came::Broken(place) => Answer::Broken(place),
    }
}

/// What a leg of at most so many acts came to, by the finish word.
pub(crate) fn leg_came(
    alloc: Global,
    machine: &Machine,
    names: &Names,
    turns: u64,
) -> Result<Came, NoMemory>
    requires lengths { (seen machine.now).array_lengths ≡ lengths_of names.now }
    ensures { IfOk result (λ came. IsTheOne (IsSaid turns (seen machine.now) (named names.now)) (with_tally came (tally_of (seen machine.now)))) }
{
    match machine.outcome() {
        Ending::NotYet => Ok(Came::Unfinished(turns)),
        Ending::With(finish) => match finish {
            Finish::Ended => Ok(Came::Ended(arrays_of_names(alloc, machine, names.as_slice())?)),
            Finish::Trapped { trap, line } => Ok(Came::Trapped(trap, line)),
            Finish::OutOfRoom { place } => Ok(Came::OutOfRoom(place)),
            Finish::Broken { place } => Ok(Came::Broken(place)),
            // Of no leg, as are unknown words.
            Finish::OutOfTurns { .. } => Ok(Came::Broken(UNKNOWN_PLACE)),
            Finish::Stopped | Finish::Unset => Ok(Came::Broken(UNKNOWN_PLACE)),
        },
        Ending::Unknown => Ok(Came::Broken(UNKNOWN_PLACE)),
    }
}

/// Arrays of these names, with the values that a machine has for them.
fn arrays_of_names(
    alloc: Global,
    machine: &Machine,
    names: &[NamedLength],
) -> Result<Items<NamedArray>, NoMemory>
    requires lengths { (seen machine.now).array_lengths ≡ lengths_of names.now }
    ensures { IfOk result (λ arrays. arrays
        ≡ arrays_from (seen machine.now).shape (seen machine.now).array_lengths (seen machine.now).state.words 0 (named names.now)) }
{
    let mut arrays = Vec::new(alloc);
    let mut number = 0;
    let mut left = names;
    while let [array, rest @ ..] = left {
        let name = array.name.try_clone(alloc)?;
        let values = to_values(alloc, machine.array(number))?;
        arrays.push(NamedArray {
            name,
            values: Items::from_vec(values),
        })?;
        number += 1;
        left = rest;
    }
    Ok(Items::from_vec(arrays))
}
