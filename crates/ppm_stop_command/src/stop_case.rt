//! The command `stop` of a case.
ghost use Rattle.std.specs.Prelude.{◌≡◌, IfOk};
ghost use Rattle.ppm_ports.specs.Ports.{port};
ghost use Rattle.ppm_ports.specs.Outside.{ports};
ghost use Rattle.ppm_answers.specs.declared.answer.Answer.TheVariants as answers;
ghost use Rattle.ppm_cli.specs.Words.{AreStopped};
ghost use Rattle.ppm_saved.specs.Names.{AreNames};
ghost use Rattle.ppm_stop_command.specs.CaseStops.{StopCaseMay};
ghost use Rattle.ppm_stop_command.specs.CaseStopRows.{IsCaseStopped};
ghost use Rattle.ppm_outcomes.specs.Stops.{CodeReads, names_of as names_in};

use crate::one_stop::case_stops_have_one_answer;
use crate::stop::stopped_code;
use ppm_answers::{Answer, Status, deliver};
use ppm_case::Case;
use ppm_cli::StopOptions;
use ppm_orders::read_task;
use ppm_plan::{Schedule, have_one_answer as schedules_have_one_answer};
use ppm_ports::{Sink, Source};
use ppm_words::{Items, NoMemory};
use std::alloc::Global;

/// Runs the case that is read, sound or not, on a machine whose processors act as the schedule
/// says, for so many acts, those of the schedule among them, and writes the saved text of the
/// machine then on `out`, whatever its finish word is; why there is none on `err`. If no capsule of
/// the code has a conflict, and each is tidy, that state is read back from the text; else none is.
/// Where the schedule is refused, the source is left unread.
pub fn stop_case_command<S: Source, K: Sink, E: Sink>(
    alloc: Global,
    options: StopOptions,
    schedule: &[u8],
    source: &mut S,
    out: &mut K,
    err: &mut E,
) -> Status
    requires options { AreStopped options }

    // An answer that the command's causes allow is delivered, and its rows hold.
    ensures { IsCaseStopped options schedule.now (ports (port S.left S.fault_count source.old source.new)
        (port K.written K.fault_count out.old out.new) (port E.written E.fault_count err.old err.new)) result }
{
    // The rows rest on these laws; the calls do nothing.
    case_stops_have_one_answer();
    schedules_have_one_answer();
    let answer = read_answer(alloc, options, schedule, source);
    deliver(alloc, &answer, out, err)
}

/// The answer of `stop` of a case: the schedule is read first, and then the source.
fn read_answer<S: Source>(
    alloc: Global,
    options: StopOptions,
    schedule: &[u8],
    source: &mut S,
) -> Answer
    requires options { AreStopped options }
    ensures { StopCaseMay options schedule.now (port S.left S.fault_count source.old source.new) result }
{
    match read_task(alloc, schedule, options.processors, source) {
        Ok((schedule, case)) => match stopped_case(alloc, options, &schedule, case) {
            Ok(text) => Answer::Saved(Items::from_vec(text)),
            Err(NoMemory) => Answer::NoMemory,
        },
        Err(answer) => answer,
    }
}

/// The saved text of the run of a case, whose arrays have names of their own.
fn stopped_case(
    alloc: Global,
    options: StopOptions,
    schedule: &Schedule,
    case: Case,
) -> Result<Vec<u8>, NoMemory>
    requires options { AreStopped options }
    requires processors { schedule.now.processors ≡ options.processors }
    requires names { AreNames (names_in case.input) }
    ensures { IfOk result (λ text. CodeReads options schedule.now.items case.code case.input (answers.Saved text.items)) }
{
    let Case { code, input, .. } = case;
    let text = stopped_code(alloc, options, schedule, code, &input)?;
    Ok(text)
}
