//! The command `run`.
ghost use Rattle.std.specs.Prelude.{◌≡◌, IfErr, IfOk, length, map};
ghost use Rattle.ppm_ports.specs.Ports.{port};
ghost use Rattle.ppm_ports.specs.Outside.{KeepFronts, outside};
ghost use Rattle.ppm_answers.specs.Reading.{Answers};
ghost use Rattle.ppm_cli.specs.Words.{AreRun};
ghost use Rattle.ppm_tree.specs.Tree.{tree_of};
ghost use Rattle.ppm_depth.specs.Start.{NamesArrays};
ghost use Rattle.ppm_cut_bounds.specs.Bounds.{IsWithinBounds};
ghost use Rattle.ppm_outcomes.specs.Runs.{CodeHas, CodeWants, ProgramHas, ProgramWants, RunMay, RunTells};
ghost use Rattle.ppm_outcomes.specs.Runs.{limits_of as limits_in, sizes_of as sizes_in};
ghost use Rattle.ppm_driver.specs.RunRows.{RunRows};
ghost use Rattle.ppm_outcomes.specs.Watchers.{OthersKeep, watcher_count};

use crate::complete::runs_complete;
use crate::one_run::answers_are_one;
use ppm_answers::{Answer, Status, deliver};
use ppm_choice::Limits;
use ppm_cli::RunOptions;
use ppm_code::Code;
use ppm_loading::{Sizes, program_code, share_code};
use ppm_orders::read_task;
use ppm_outcomes::{run_answer, runs_are_as_programs};
use ppm_plan::{Plan, have_one_answer as plans_have_one_answer};
use ppm_ports::{Sink, Source, Watch};
use ppm_regions::Admitted;
use ppm_threads::drive;
use ppm_words::{Input, NoMemory, PROCESSOR_LIMIT};
use std::alloc::Global;
use std::sync::Wait;
use std::thread::Threads;

/// The watchers of a run: one for each processor that it may have.
pub const WATCHERS: usize = PROCESSOR_LIMIT as usize;

/// Runs the text that is read on a machine whose processors, each a thread, obey the plan of faults
/// and the limits of the options: its arrays or its trap are written on `out`, why there are none
/// on `err`. Where the plan is refused, the source is left unread. It may never return. There is a
/// watcher for each of 64 processors; those of the run's processors are told every turn, and where
/// they park. Where one refuses, the answer is out of memory.
pub fn run_command<R: Threads + Wait + Sync, S: Source, K: Sink, E: Sink, W: Watch>(
    rt: &R,
    alloc: Global,
    options: RunOptions,
    faults: &[u8],
    source: &mut S,
    out: &mut K,
    err: &mut E,
    watch: &mut Vec<W>,
) -> Status
    requires options { AreRun options }
    requires watchers { length watch.old.items ≡ watcher_count }

    // An answer that the command's causes allow, and its texts. After a run each processor's
    // watcher was told its turns, and where it parked. Where memory is wanting, or a watcher
    // refused, either nobody was told anything, or the lists are those of one run: up to where
    // watchers refused, or whole. The other watchers are told nothing.
    ensures answers { let o = outside (port S.left S.fault_count source.old source.new)
        (port K.written K.fault_count out.old out.new) (port E.written E.fault_count err.old err.new)
        (map W.told watch.old.items) (map W.told watch.new.items)
        in Answers (RunMay options options.processors faults.now o.told_before o.told_now o.source) (RunTells options options.processors faults.now o.source) o result }

    // What follows from each status.
    ensures rows { RunRows options options.processors faults.now (outside (port S.left S.fault_count source.old source.new)
        (port K.written K.fault_count out.old out.new) (port E.written E.fault_count err.old err.new)
        (map W.told watch.old.items) (map W.told watch.new.items)) result }

    ensures watchers { length watch.new.items ≡ watcher_count }
{
    // The rows rest on these laws; the calls do nothing.
    answers_are_one();
    plans_have_one_answer();
    runs_are_as_programs();
    runs_complete();
    let answer = read_answer(rt, alloc, options, faults, source, watch);
    deliver(alloc, &answer, out, err)
}

/// The answer of `run`: the plan is read first, and then the source.
fn read_answer<R: Threads + Wait + Sync, S: Source, W: Watch>(
    rt: &R,
    alloc: Global,
    options: RunOptions,
    faults: &[u8],
    source: &mut S,
    watch: &mut Vec<W>,
) -> Answer
    requires options { AreRun options }
    requires watchers { length watch.old.items ≡ watcher_count }
    ensures may { RunMay options options.processors faults.now (map W.told watch.old.items) (map W.told watch.new.items)
        (port S.left S.fault_count source.old source.new) result }
    ensures told { RunTells options options.processors faults.now (port S.left S.fault_count source.old source.new) result
        (map W.told watch.old.items) (map W.told watch.new.items) }
    ensures kept { KeepFronts (map W.told watch.old.items) (map W.told watch.new.items) }
    ensures watchers { length watch.new.items ≡ watcher_count }
{
    match read_task(alloc, faults, options.processors, source) {
        Ok((plan, program)) => match ran(rt, alloc, options, &plan, &program, watch) {
            Ok(answer) => answer,
            Err(NoMemory) => Answer::NoMemory,
        },
        Err(answer) => answer,
    }
}

/// What the run of a program comes to.
pub(crate) fn ran<R: Threads + Wait + Sync, W: Watch>(
    rt: &R,
    alloc: Global,
    options: RunOptions,
    plan: &Plan,
    program: &Admitted,
    watch: &mut Vec<W>,
) -> Result<Answer, NoMemory>
    requires options { AreRun options }
    requires processors { plan.now.processors ≡ options.processors }
    requires bounded { IsWithinBounds (tree_of program.now) }
    requires watchers { length watch.old.items ≡ watcher_count }
    ensures has { IfOk result (ProgramHas options options.processors (map W.told watch.old.items) (map W.told watch.new.items)
        plan.now.items (tree_of program.now)) }
    ensures wants { IfErr result (λ _. ProgramWants options options.processors (map W.told watch.old.items)
        (map W.told watch.new.items) plan.now.items (tree_of program.now)) }
    ensures kept { KeepFronts (map W.told watch.old.items) (map W.told watch.new.items) }
    ensures others { OthersKeep options.processors (map W.told watch.old.items) (map W.told watch.new.items) }
    ensures watchers { length watch.new.items ≡ watcher_count }
{
    let code = program_code(alloc, program)?;
    let answer = ran_code(rt, alloc, options, plan, code, program.input(), watch)?;
    Ok(answer)
}

/// What the run of a code on an input comes to.
pub(crate) fn ran_code<R: Threads + Wait + Sync, W: Watch>(
    rt: &R,
    alloc: Global,
    options: RunOptions,
    plan: &Plan,
    code: Code,
    input: &Input,
    watch: &mut Vec<W>,
) -> Result<Answer, NoMemory>
    requires options { AreRun options }
    requires processors { plan.now.processors ≡ options.processors }
    requires names { NamesArrays code input.now }
    requires watchers { length watch.old.items ≡ watcher_count }
    ensures has { IfOk result (CodeHas options options.processors (map W.told watch.old.items) (map W.told watch.new.items)
        plan.now.items code input.now) }
    ensures wants { IfErr result (λ _. CodeWants options options.processors (map W.told watch.old.items)
        (map W.told watch.new.items) plan.now.items code input.now) }
    ensures kept { KeepFronts (map W.told watch.old.items) (map W.told watch.new.items) }
    ensures others { OthersKeep options.processors (map W.told watch.old.items) (map W.told watch.new.items) }
    ensures watchers { length watch.new.items ≡ watcher_count }
{
    let table = share_code(alloc, sizes_of(options), code, input, plan.keeper())?;
    let (shared, processors) = table;
    // What the type of its code keeps is known once its parts were seen.
    let _ = shared.code.parts();
    let closed = drive(
        rt,
        alloc,
        shared,
        processors,
        plan,
        limits_of(options),
        watch,
    )?;
    let answer = run_answer(alloc, &closed, input.arrays())?;
    Ok(answer)
}

/// The machine's sizes, as the options say them.
pub(crate) fn sizes_of(options: RunOptions) -> Sizes
    ensures { result ≡ sizes_in options }
{
    Sizes {
        processors: options.processors,
        room: options.room,
        slots: options.slots,
        takeover: options.takeover,
    }
}

/// The limits, as the options say them.
pub(crate) fn limits_of(options: RunOptions) -> Limits
    ensures { result ≡ limits_in options }
{
    Limits {
        turns: options.turns,
        looks: options.looks,
        seed: options.seed,
        idle: options.idle,
    }
}
