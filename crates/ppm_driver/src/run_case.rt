//! The command `run` of a case.
ghost use Rattle.std.specs.Prelude.{◌≡◌, IfErr, IfOk, length, map};
ghost use Rattle.ppm_ports.specs.Ports.{port};
ghost use Rattle.ppm_ports.specs.Outside.{KeepFronts, outside};
ghost use Rattle.ppm_answers.specs.Reading.{Answers};
ghost use Rattle.ppm_cli.specs.Words.{AreRun};
ghost use Rattle.ppm_driver.specs.CaseRuns.{RunCaseMay, RunCaseTells};
ghost use Rattle.ppm_driver.specs.CaseRows.{RunCaseRows};
ghost use Rattle.ppm_outcomes.specs.Runs.{CodeHas, CodeWants};
ghost use Rattle.ppm_outcomes.specs.Watchers.{OthersKeep, watcher_count};

use crate::as_code::answers_are_as_code;
use crate::one_case::case_answers_are_one;
use crate::run::ran_code;
use ppm_answers::{Answer, Status, deliver};
use ppm_case::{Case, faults_tell_cases};
use ppm_cli::RunOptions;
use ppm_orders::read_task;
use ppm_plan::{Plan, have_one_answer as plans_have_one_answer};
use ppm_ports::{Sink, Source, Watch};
use ppm_words::NoMemory;
use std::alloc::Global;
use std::sync::Wait;
use std::thread::Threads;

/// Runs the case that is read, sound or not, on a machine whose processors, each a thread, obey the
/// plan of faults and the limits of the options: its arrays or its trap are written on `out`, why
/// there are none on `err`. Where the plan is refused, the source is left unread. It may never
/// return. There is a watcher for each of 64 processors; those of the run's processors are told
/// every turn, and where they park. Where one refuses, the answer is out of memory.
pub fn run_case_command<R: Threads + Wait + Sync, S: Source, K: Sink, E: Sink, W: Watch>(
    rt: &R,
    alloc: Global,
    options: RunOptions,
    faults: &[u8],
    source: &mut S,
    out: &mut K,
    err: &mut E,
    watch: &mut Vec<W>,
) -> Status
    requires options { AreRun options }
    requires watchers { length watch.old.items ≡ watcher_count }

    // An answer that the command's causes allow, and its texts. After a run each processor's
    // watcher was told its turns, and where it parked. Where memory is wanting, or a watcher
    // refused, either nobody was told anything, or the lists are those of one run: up to where
    // watchers refused, or whole. The other watchers are told nothing.
    ensures answers { let o = outside (port S.left S.fault_count source.old source.new)
        (port K.written K.fault_count out.old out.new) (port E.written E.fault_count err.old err.new)
        (map W.told watch.old.items) (map W.told watch.new.items)
        in Answers (RunCaseMay options options.processors faults.now o.told_before o.told_now o.source)
        (RunCaseTells options options.processors faults.now o.source) o result }

    // What follows from each status.
    ensures rows { RunCaseRows options options.processors faults.now (outside (port S.left S.fault_count source.old source.new)
        (port K.written K.fault_count out.old out.new) (port E.written E.fault_count err.old err.new)
        (map W.told watch.old.items) (map W.told watch.new.items)) result }

    ensures watchers { length watch.new.items ≡ watcher_count }
{
    // The rows rest on these laws; the calls do nothing.
    faults_tell_cases();
    case_answers_are_one();
    plans_have_one_answer();
    answers_are_as_code();
    let answer = read_answer(rt, alloc, options, faults, source, watch);
    deliver(alloc, &answer, out, err)
}

/// The answer of `run` of a case: the plan is read first, and then the source.
fn read_answer<R: Threads + Wait + Sync, S: Source, W: Watch>(
    rt: &R,
    alloc: Global,
    options: RunOptions,
    faults: &[u8],
    source: &mut S,
    watch: &mut Vec<W>,
) -> Answer
    requires options { AreRun options }
    requires watchers { length watch.old.items ≡ watcher_count }
    ensures may { RunCaseMay options options.processors faults.now (map W.told watch.old.items) (map W.told watch.new.items)
        (port S.left S.fault_count source.old source.new) result }
    ensures told { RunCaseTells options options.processors faults.now (port S.left S.fault_count source.old source.new) result
        (map W.told watch.old.items) (map W.told watch.new.items) }
    ensures kept { KeepFronts (map W.told watch.old.items) (map W.told watch.new.items) }
    ensures watchers { length watch.new.items ≡ watcher_count }
{
    match read_task(alloc, faults, options.processors, source) {
        Ok((plan, case)) => match ran_case(rt, alloc, options, &plan, case, watch) {
            Ok(answer) => answer,
            Err(NoMemory) => Answer::NoMemory,
        },
        Err(answer) => answer,
    }
}

/// What the run of a case comes to.
fn ran_case<R: Threads + Wait + Sync, W: Watch>(
    rt: &R,
    alloc: Global,
    options: RunOptions,
    plan: &Plan,
    case: Case,
    watch: &mut Vec<W>,
) -> Result<Answer, NoMemory>
    requires options { AreRun options }
    requires processors { plan.now.processors ≡ options.processors }
    requires watchers { length watch.old.items ≡ watcher_count }
    ensures has { IfOk result (CodeHas options options.processors (map W.told watch.old.items) (map W.told watch.new.items)
        plan.now.items case.code case.input) }
    ensures wants { IfErr result (λ _. CodeWants options options.processors (map W.told watch.old.items)
        (map W.told watch.new.items) plan.now.items case.code case.input) }
    ensures kept { KeepFronts (map W.told watch.old.items) (map W.told watch.new.items) }
    ensures others { OthersKeep options.processors (map W.told watch.old.items) (map W.told watch.new.items) }
    ensures watchers { length watch.new.items ≡ watcher_count }
{
    let Case { code, input, .. } = case;
    ran_code(rt, alloc, options, plan, code, &input, watch)
}
