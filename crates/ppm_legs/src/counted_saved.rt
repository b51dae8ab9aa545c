//! The command `replay` of a saved text where what is counted in its run is told.
ghost use Rattle.std.specs.Prelude.{◌≡◌, ◌≢◌, IfOk, None};
ghost use Rattle.ppm_ports.specs.Ports.{port};
ghost use Rattle.ppm_ports.specs.Outside.{ports};
ghost use Rattle.ppm_cells.specs.Finish.{finish_of};
ghost use Rattle.ppm_cli.specs.Words.{AreSavedReplayed};
ghost use Rattle.ppm_outcomes.specs.Resumes.{saved_finish, state_of};
ghost use Rattle.ppm_legs.specs.SavedTexts.{HasText};
ghost use Rattle.ppm_legs.specs.CountedReplays.{CountedMay, StateCounts};
ghost use Rattle.ppm_legs.specs.CountedReplayRows.{IsCountedReplay};

use crate::leg::counted_leg;
use crate::replay_saved::leg_came;
use crate::saved_answers::counted_saved_replays_have_one_answer;
use crate::saved_reading::read_leg;
use ppm_answers::{Answer, Status, deliver};
use ppm_cli::ReplaySavedOptions;
use ppm_outcomes::resume_laws;
use ppm_plan::Schedule;
use ppm_ports::{Sink, Source};
use ppm_saved::Saved;
use ppm_trace::counts_are_of_turns;
use ppm_words::NoMemory;
use std::alloc::Global;

/// Goes on from the state of the saved text that is read, on a machine whose processors are fresh
/// and act as the schedule says, with at most so many acts: its arrays or its trap, how many forks
/// and takes this run had, and what was counted in it, are written on `out`; why there are no
/// arrays, and what was counted, on `err`. Nothing is counted of the legs before. The schedule is
/// judged for as many processors as the state has.
pub fn counted_replay_saved_command<S: Source, K: Sink, E: Sink>(
    alloc: Global,
    options: ReplaySavedOptions,
    schedule: &[u8],
    source: &mut S,
    out: &mut K,
    err: &mut E,
) -> Status
    requires options { AreSavedReplayed options }

    // An answer that the command's causes allow is delivered, and its rows hold.
    ensures { IsCountedReplay options schedule.now (ports (port S.left S.fault_count source.old source.new)
        (port K.written K.fault_count out.old out.new) (port E.written E.fault_count err.old err.new)) result }
{
    // The rows rest on these laws; the calls do nothing.
    counted_saved_replays_have_one_answer();
    resume_laws();
    let answer = read_answer(alloc, options, schedule, source);
    deliver(alloc, &answer, out, err)
}

/// The answer of such a `replay`: the saved text is read first, and then the schedule.
fn read_answer<S: Source>(
    alloc: Global,
    options: ReplaySavedOptions,
    schedule: &[u8],
    source: &mut S,
) -> Answer
    requires options { AreSavedReplayed options }
    ensures { CountedMay options schedule.now (port S.left S.fault_count source.old source.new) result }
{
    match read_leg(alloc, schedule, source) {
        Ok((saved, schedule)) => match counted(alloc, options, saved, &schedule) {
            Ok(answer) => answer,
            Err(NoMemory) => Answer::NoMemory,
        },
        Err(answer) => answer,
    }
}

/// What a leg from a state comes to, and what is counted in it.
fn counted(
    alloc: Global,
    options: ReplaySavedOptions,
    saved: Saved,
    schedule: &Schedule,
) -> Result<Answer, NoMemory>
    requires options { AreSavedReplayed options }
    requires processors { schedule.now.processors ≡ saved.shape.processors }
    requires stands { finish_of (saved_finish (state_of saved)) ≢ None }
    requires there { HasText (state_of saved) }
    ensures { IfOk result (StateCounts options schedule.now.items (state_of saved)) }
{
    // The calls are for their contracts: the schedule spares this processor, which makes acts until
    // the finish word is set; and the machine counts as many forks and takes.
    let _ = schedule.keeper();
    counts_are_of_turns();
    let gone = counted_leg(alloc, saved, schedule, options.turns)?;
    let (machine, names, counts) = gone;
    let came = leg_came(alloc, &machine, &names, options.turns)?;
    Ok(Answer::ReplayedWith(came, counts))
}
