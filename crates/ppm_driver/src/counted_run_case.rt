//! The command `run` of a case where what is counted in its run is told.
ghost use Rattle.std.specs.Prelude.{◌≡◌, IfOk};
ghost use Rattle.ppm_ports.specs.Ports.{port};
ghost use Rattle.ppm_ports.specs.Outside.{ports};
ghost use Rattle.ppm_cli.specs.Words.{AreRun};
ghost use Rattle.ppm_outcomes.specs.CountedRuns.{CodeHas};
ghost use Rattle.ppm_driver.specs.CountedCaseRuns.{CountedRunCaseMay};
ghost use Rattle.ppm_driver.specs.CountedRunCaseRows.{IsCountedRunCase};

use crate::as_code::answers_are_as_code;
use crate::counted_run::counted_code;
use crate::one_case::case_answers_are_one;
use crate::one_counted_run::counted_case_answers_are_one;
use ppm_answers::{Answer, Status, deliver};
use ppm_case::{Case, faults_tell_cases};
use ppm_cli::RunOptions;
use ppm_orders::read_task;
use ppm_plan::{Plan, have_one_answer as plans_have_one_answer};
use ppm_ports::{Sink, Source};
use ppm_words::NoMemory;
use std::alloc::Global;
use std::sync::Wait;
use std::thread::Threads;

/// Runs the case that is read, sound or not, on a machine whose processors, each a thread, obey the
/// plan of faults and the limits of the options: its arrays or its trap, and what was counted in the
/// run, are written on `out`; why there are no arrays, and what was counted, on `err`. Each step of a
/// processor is a turn of its own then. Where the plan is refused, the source is left unread. It may
/// never return.
pub fn counted_run_case_command<R: Threads + Wait + Sync, S: Source, K: Sink, E: Sink>(
    rt: &R,
    alloc: Global,
    options: RunOptions,
    faults: &[u8],
    source: &mut S,
    out: &mut K,
    err: &mut E,
) -> Status
    requires options { AreRun options }

    // An answer that the command's causes allow is delivered, and its rows hold.
    ensures { IsCountedRunCase options faults.now (ports (port S.left S.fault_count source.old source.new)
        (port K.written K.fault_count out.old out.new) (port E.written E.fault_count err.old err.new)) result }
{
    // The rows rest on these laws; the calls do nothing.
    faults_tell_cases();
    case_answers_are_one();
    counted_case_answers_are_one();
    plans_have_one_answer();
    answers_are_as_code();
    let answer = read_answer(rt, alloc, options, faults, source);
    deliver(alloc, &answer, out, err)
}

/// The answer of such a `run` of a case: the plan is read first, and then the source.
fn read_answer<R: Threads + Wait + Sync, S: Source>(
    rt: &R,
    alloc: Global,
    options: RunOptions,
    faults: &[u8],
    source: &mut S,
) -> Answer
    requires options { AreRun options }
    ensures { CountedRunCaseMay options faults.now (port S.left S.fault_count source.old source.new) result }
{
    match read_task(alloc, faults, options.processors, source) {
        Ok((plan, case)) => match counted_case(rt, alloc, options, &plan, case) {
            Ok(answer) => answer,
            Err(NoMemory) => Answer::NoMemory,
        },
        Err(answer) => answer,
    }
}

/// What the run of a case comes to, and what is counted in it.
fn counted_case<R: Threads + Wait + Sync>(
    rt: &R,
    alloc: Global,
    options: RunOptions,
    plan: &Plan,
    case: Case,
) -> Result<Answer, NoMemory>
    requires options { AreRun options }
    requires processors { plan.now.processors ≡ options.processors }
    ensures { IfOk result (CodeHas options plan.now.items case.code case.input) }
{
    let Case { code, input, .. } = case;
    counted_code(rt, alloc, options, plan, code, &input)
}
