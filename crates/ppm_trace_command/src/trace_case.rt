//! The command `trace` of a case.
ghost use Rattle.std.specs.Prelude.{◌≡◌, IfOk};
ghost use Rattle.ppm_ports.specs.Ports.{port};
ghost use Rattle.ppm_ports.specs.Outside.{ports};
ghost use Rattle.ppm_answers.specs.declared.answer.Answer.TheVariants as answers;
ghost use Rattle.ppm_cli.specs.Words.{AreTraced};
ghost use Rattle.ppm_trace_command.specs.CaseTraces.{CaseHas, TraceCaseMay};
ghost use Rattle.ppm_trace_command.specs.CaseTraceRows.{IsCaseTraced};

use crate::one_trace::case_traces_have_one_answer;
use crate::trace::traced_code;
use crate::trace_names::case_names;
use ppm_answers::{Answer, Status, deliver};
use ppm_case::Case;
use ppm_cli::TraceOptions;
use ppm_orders::read_task;
use ppm_plan::{Schedule, have_one_answer as schedules_have_one_answer};
use ppm_ports::{Sink, Source};
use ppm_words::{Items, NoMemory};
use std::alloc::Global;

/// Runs the case that is read, sound or not, on a machine whose processors act as the schedule
/// says, and tells on `out` so many acts, after so many that are not told, whatever the run comes
/// to; why it tells none on `err`. Where the schedule is refused, the source is left unread.
pub fn trace_case_command<S: Source, K: Sink, E: Sink>(
    alloc: Global,
    options: TraceOptions,
    schedule: &[u8],
    source: &mut S,
    out: &mut K,
    err: &mut E,
) -> Status
    requires options { AreTraced options }

    // An answer that the command's causes allow is delivered, and its rows hold.
    ensures { IsCaseTraced options schedule.now (ports (port S.left S.fault_count source.old source.new)
        (port K.written K.fault_count out.old out.new) (port E.written E.fault_count err.old err.new)) result }
{
    // The rows rest on these laws; the calls do nothing.
    case_traces_have_one_answer();
    schedules_have_one_answer();
    let answer = read_answer(alloc, options, schedule, source);
    deliver(alloc, &answer, out, err)
}

/// The answer of `trace` of a case: the schedule is read first, and then the source.
fn read_answer<S: Source>(
    alloc: Global,
    options: TraceOptions,
    schedule: &[u8],
    source: &mut S,
) -> Answer
    requires options { AreTraced options }
    ensures { TraceCaseMay options schedule.now (port S.left S.fault_count source.old source.new) result }
{
    match read_task(alloc, schedule, options.processors, source) {
        Ok((schedule, case)) => match traced_case(alloc, options, &schedule, case) {
            Ok(text) => Answer::Traced(Items::from_vec(text)),
            Err(NoMemory) => Answer::NoMemory,
        },
        Err(answer) => answer,
    }
}

/// What is told of a case's run.
fn traced_case(
    alloc: Global,
    options: TraceOptions,
    schedule: &Schedule,
    case: Case,
) -> Result<Vec<u8>, NoMemory>
    requires options { AreTraced options }
    requires processors { schedule.now.processors ≡ options.processors }
    ensures { IfOk result (λ text. CaseHas options schedule.now.items case.code case.input (answers.Traced text.items)) }
{
    let Case { code, input, .. } = case;
    let names = case_names(alloc, &code, &input)?;
    let text = traced_code(alloc, options, schedule, &names, code, &input)?;
    Ok(text)
}
