//! The command `sweep` of a case.
ghost use Rattle.std.specs.Prelude.{◌≡◌, IfOk};
ghost use Rattle.ppm_ports.specs.Ports.{port};
ghost use Rattle.ppm_ports.specs.Outside.{ports};
ghost use Rattle.ppm_cli.specs.Words.{AreSwept};
ghost use Rattle.ppm_sweep_command.specs.CaseSweeps.{SweepCaseMay};
ghost use Rattle.ppm_sweep_command.specs.CaseSweepRows.{IsCaseSwept};
ghost use Rattle.ppm_sweep_command.specs.Sweeps.{CodeHas};

use crate::as_code::sweeps_are_as_code;
use crate::one_sweep::case_sweeps_have_one_answer;
use crate::sweeping::swept_code;
use ppm_answers::{Answer, Status, deliver};
use ppm_case::Case;
use ppm_cli::SweepOptions;
use ppm_orders::read_task;
use ppm_plan::{Schedule, have_one_answer as schedules_have_one_answer};
use ppm_ports::{Sink, Source};
use ppm_words::NoMemory;
use std::alloc::Global;

/// Replays the case that is read, sound or not, by a schedule, and again with one fault more, or
/// more faults, put into it before its acts, in their order, under each takeover that is asked,
/// until a replay does not come to what the case comes to, run depth first. Where none differs, how
/// many replays, faults and acts there were is written on `out`, else the schedule of the first
/// that does, and what it comes to, on `err`. Where the schedule is refused, the source is left
/// unread.
pub fn sweep_case_command<S: Source, K: Sink, E: Sink>(
    alloc: Global,
    options: SweepOptions,
    schedule: &[u8],
    source: &mut S,
    out: &mut K,
    err: &mut E,
) -> Status
    requires options { AreSwept options }

    // An answer that the command's causes allow is delivered, and its rows hold.
    ensures { IsCaseSwept options schedule.now (ports (port S.left S.fault_count source.old source.new)
        (port K.written K.fault_count out.old out.new) (port E.written E.fault_count err.old err.new)) result }
{
    // The rows rest on these laws; the calls do nothing.
    case_sweeps_have_one_answer();
    schedules_have_one_answer();
    sweeps_are_as_code();
    let answer = read_answer(alloc, options, schedule, source);
    deliver(alloc, &answer, out, err)
}

/// The answer of `sweep` of a case: the schedule is read first, and then the source.
fn read_answer<S: Source>(
    alloc: Global,
    options: SweepOptions,
    schedule: &[u8],
    source: &mut S,
) -> Answer
    requires options { AreSwept options }
    ensures { SweepCaseMay options schedule.now (port S.left S.fault_count source.old source.new) result }
{
    match read_task(alloc, schedule, options.processors, source) {
        Ok((schedule, case)) => match swept_case(alloc, options, &schedule, &case) {
            Ok(answer) => answer,
            Err(NoMemory) => Answer::NoMemory,
        },
        Err(answer) => answer,
    }
}

/// What is answered where a case is swept.
fn swept_case(
    alloc: Global,
    options: SweepOptions,
    schedule: &Schedule,
    case: &Case,
) -> Result<Answer, NoMemory>
    requires options { AreSwept options }
    requires processors { schedule.now.processors ≡ options.processors }
    ensures { IfOk result (CodeHas options schedule.now.items case.now.code case.now.input) }
{
    swept_code(alloc, options, schedule, &case.code, &case.input)
}
