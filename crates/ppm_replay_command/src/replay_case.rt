//! The command `replay` of a case.
ghost use Rattle.std.specs.Prelude.{◌≡◌, IfOk};
ghost use Rattle.ppm_ports.specs.Ports.{port};
ghost use Rattle.ppm_ports.specs.Outside.{ports};
ghost use Rattle.ppm_cli.specs.Words.{AreReplayed};
ghost use Rattle.ppm_replay_command.specs.CaseReplays.{ReplayCaseMay};
ghost use Rattle.ppm_replay_command.specs.CaseReplayRows.{IsCaseReplayed};
ghost use Rattle.ppm_outcomes.specs.Replays.{CodeHas};

use crate::one_replay::case_replays_have_one_answer;
use crate::replay::replayed_code;
use ppm_answers::{Answer, Status, deliver};
use ppm_case::Case;
use ppm_cli::ReplayOptions;
use ppm_orders::read_task;
use ppm_outcomes::replays_are_as_code;
use ppm_plan::{Schedule, have_one_answer as schedules_have_one_answer};
use ppm_ports::{Sink, Source};
use ppm_words::NoMemory;
use std::alloc::Global;

/// Replays the case that is read, sound or not, on a machine whose processors act as the schedule
/// says, with at most so many acts: its arrays or its trap, and how many forks and takes there
/// were, are written on `out`, why there are none on `err`. Where the schedule is refused, the
/// source is left unread.
pub fn replay_case_command<S: Source, K: Sink, E: Sink>(
    alloc: Global,
    options: ReplayOptions,
    schedule: &[u8],
    source: &mut S,
    out: &mut K,
    err: &mut E,
) -> Status
    requires options { AreReplayed options }

    // An answer that the command's causes allow is delivered, and its rows hold.
    ensures { IsCaseReplayed options schedule.now (ports (port S.left S.fault_count source.old source.new)
        (port K.written K.fault_count out.old out.new) (port E.written E.fault_count err.old err.new)) result }
{
    // The rows rest on these laws; the calls do nothing.
    case_replays_have_one_answer();
    schedules_have_one_answer();
    replays_are_as_code();
    let answer = read_answer(alloc, options, schedule, source);
    deliver(alloc, &answer, out, err)
}

/// The answer of `replay` of a case: the schedule is read first, and then the source.
fn read_answer<S: Source>(
    alloc: Global,
    options: ReplayOptions,
    schedule: &[u8],
    source: &mut S,
) -> Answer
    requires options { AreReplayed options }
    ensures { ReplayCaseMay options schedule.now (port S.left S.fault_count source.old source.new) result }
{
    match read_task(alloc, schedule, options.processors, source) {
        Ok((schedule, case)) => match replayed_case(alloc, options, &schedule, case) {
            Ok(answer) => answer,
            Err(NoMemory) => Answer::NoMemory,
        },
        Err(answer) => answer,
    }
}

/// What the replay of a case comes to.
fn replayed_case(
    alloc: Global,
    options: ReplayOptions,
    schedule: &Schedule,
    case: Case,
) -> Result<Answer, NoMemory>
    requires options { AreReplayed options }
    requires processors { schedule.now.processors ≡ options.processors }
    ensures { IfOk result (CodeHas options schedule.now.items case.code case.input) }
{
    let Case { code, input, .. } = case;
    replayed_code(alloc, options, schedule, code, &input)
}
