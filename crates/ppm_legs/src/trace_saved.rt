//! The command `trace` of a saved text.
ghost use Rattle.std.specs.Prelude.{◌≡◌, ◌≢◌, IfOk, None};
ghost use Rattle.ppm_ports.specs.Ports.{port};
ghost use Rattle.ppm_ports.specs.Outside.{ports};
ghost use Rattle.ppm_answers.specs.declared.answer.Answer.TheVariants as answers;
ghost use Rattle.ppm_cells.specs.Finish.{finish_of};
ghost use Rattle.ppm_cli.specs.Words.{AreSavedTraced};
ghost use Rattle.ppm_outcomes.specs.Resumes.{saved_finish, state_of};
ghost use Rattle.ppm_legs.specs.SavedTraceRows.{IsTraced};
ghost use Rattle.ppm_legs.specs.SavedTraces.{StateTraces, TraceMay};

use crate::saved_answers::saved_traces_have_one_answer;
use crate::saved_reading::read_leg;
use ppm_answers::{Answer, Status, deliver};
use ppm_cli::TraceSavedOptions;
use ppm_core::Machine;
use ppm_orders::form_by;
use ppm_outcomes::resume_laws;
use ppm_plan::Schedule;
use ppm_ports::{Sink, Source};
use ppm_saved::{Renewed, Saved, renew};
use ppm_show::saved_names;
use ppm_trace::trace;
use ppm_words::{Items, NoMemory};
use std::alloc::Global;

/// Goes on from the state of the saved text that is read, on a machine whose processors are fresh
/// and act as the schedule says, and tells on `out` at most so many acts, after so many that are not told,
/// whatever the run comes to; why it tells none on `err`. Arrays have the names that the text tells,
/// procedures their numbers. The schedule is judged for as many processors as the state has.
pub fn trace_saved_command<S: Source, K: Sink, E: Sink>(
    alloc: Global,
    options: TraceSavedOptions,
    schedule: &[u8],
    source: &mut S,
    out: &mut K,
    err: &mut E,
) -> Status
    requires options { AreSavedTraced options }

    // An answer that the command's causes allow is delivered, and its rows hold.
    ensures { IsTraced options schedule.now (ports (port S.left S.fault_count source.old source.new)
        (port K.written K.fault_count out.old out.new) (port E.written E.fault_count err.old err.new)) result }
{
    // The rows rest on these laws; the calls do nothing.
    saved_traces_have_one_answer();
    resume_laws();
    let answer = read_answer(alloc, options, schedule, source);
    deliver(alloc, &answer, out, err)
}

/// The answer of `trace`: the saved text is read first, and then the schedule.
fn read_answer<S: Source>(
    alloc: Global,
    options: TraceSavedOptions,
    schedule: &[u8],
    source: &mut S,
) -> Answer
    requires options { AreSavedTraced options }
    ensures { TraceMay options schedule.now (port S.left S.fault_count source.old source.new) result }
{
    match read_leg(alloc, schedule, source) {
        Ok((saved, schedule)) => match traced(alloc, options, saved, &schedule) {
            Ok(text) => Answer::Traced(Items::from_vec(text)),
            Err(NoMemory) => Answer::NoMemory,
        },
        Err(answer) => answer,
    }
}

/// What is told of a leg from a state.
fn traced(
    alloc: Global,
    options: TraceSavedOptions,
    saved: Saved,
    schedule: &Schedule,
) -> Result<Vec<u8>, NoMemory>
    requires options { AreSavedTraced options }
    requires processors { schedule.now.processors ≡ saved.shape.processors }
    requires stands { finish_of (saved_finish (state_of saved)) ≢ None }
    ensures { IfOk result (λ text. StateTraces options schedule.now.items (state_of saved) (answers.Traced text.items)) }
{
    let Renewed { image, code, names } = renew(saved, schedule.keeper());
    let mut machine = Machine::load(alloc, image, code)?;
    let names = saved_names(alloc, names.as_slice(), machine.code())?;
    let form = form_by(options.form, options.only);
    let text = trace(
        alloc,
        &mut machine,
        schedule,
        &names,
        form,
        options.from,
        options.acts,
    )?;
    Ok(text)
}
