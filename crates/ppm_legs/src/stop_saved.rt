//! The command `stop` of a saved text.
ghost use Rattle.std.specs.Prelude.{◌≡◌, ◌≢◌, IfOk, None};
ghost use Rattle.ppm_ports.specs.Ports.{port};
ghost use Rattle.ppm_ports.specs.Outside.{ports};
ghost use Rattle.ppm_answers.specs.declared.answer.Answer.TheVariants as answers;
ghost use Rattle.ppm_cells.specs.Finish.{finish_of};
ghost use Rattle.ppm_cli.specs.Words.{AreSavedStopped};
ghost use Rattle.ppm_outcomes.specs.Resumes.{saved_finish, state_of};
ghost use Rattle.ppm_legs.specs.SavedTexts.{HasText};
ghost use Rattle.ppm_legs.specs.SavedStops.{StateReads, StopMay};
ghost use Rattle.ppm_legs.specs.SavedStopRows.{IsStopped};

use crate::chains::stops_go_on_chains;
use crate::leg::leg;
use crate::saved_answers::saved_stops_have_one_answer;
use crate::saved_reading::read_leg;
use ppm_answers::{Answer, Status, deliver};
use ppm_cli::StopSavedOptions;
use ppm_outcomes::resume_laws;
use ppm_plan::Schedule;
use ppm_ports::{Sink, Source};
use ppm_saved::{Saved, write_saved};
use ppm_saved_reader::faults_tell_saved_texts;
use ppm_words::{Items, NoMemory};
use std::alloc::Global;

/// Goes on from the state of the saved text that is read, on a machine whose processors are fresh
/// and act as the schedule says, for at most so many acts, those of the schedule among them, and writes the
/// saved text of the machine then on `out`, whatever its finish word is; why there is none on `err`.
/// That state is read back from the text. The schedule is judged for as many processors as the state
/// has.
pub fn stop_saved_command<S: Source, K: Sink, E: Sink>(
    alloc: Global,
    options: StopSavedOptions,
    schedule: &[u8],
    source: &mut S,
    out: &mut K,
    err: &mut E,
) -> Status
    requires options { AreSavedStopped options }

    // An answer that the command's causes allow is delivered, and its rows hold.
    ensures { IsStopped options schedule.now (ports (port S.left S.fault_count source.old source.new)
        (port K.written K.fault_count out.old out.new) (port E.written E.fault_count err.old err.new)) result }
{
    // The rows rest on these laws; the calls do nothing.
    saved_stops_have_one_answer();
    stops_go_on_chains();
    resume_laws();
    let answer = read_answer(alloc, options, schedule, source);
    deliver(alloc, &answer, out, err)
}

/// The answer of `stop`: the saved text is read first, and then the schedule.
fn read_answer<S: Source>(
    alloc: Global,
    options: StopSavedOptions,
    schedule: &[u8],
    source: &mut S,
) -> Answer
    requires options { AreSavedStopped options }
    ensures { StopMay options schedule.now (port S.left S.fault_count source.old source.new) result }
{
    match read_leg(alloc, schedule, source) {
        Ok((saved, schedule)) => match stopped(alloc, options, saved, &schedule) {
            Ok(text) => Answer::Saved(Items::from_vec(text)),
            Err(NoMemory) => Answer::NoMemory,
        },
        Err(answer) => answer,
    }
}

/// The saved text after a leg from a state.
fn stopped(
    alloc: Global,
    options: StopSavedOptions,
    saved: Saved,
    schedule: &Schedule,
) -> Result<Vec<u8>, NoMemory>
    requires options { AreSavedStopped options }
    requires processors { schedule.now.processors ≡ saved.shape.processors }
    requires stands { finish_of (saved_finish (state_of saved)) ≢ None }
    requires there { HasText (state_of saved) }
    ensures { IfOk result (λ text. StateReads options schedule.now.items (state_of saved) (answers.Saved text.items)) }
{
    // No text of a state is too long, by this law; the call does nothing.
    faults_tell_saved_texts();
    let gone = leg(alloc, saved, schedule, options.after)?;
    let (machine, names) = gone;
    let capsules = machine.code();
    let text = write_saved(alloc, capsules, machine.shape(), &names, machine.words())?;
    Ok(text)
}
