//! The command `run` where what is counted in its run is told.
ghost use Rattle.std.specs.Prelude.{◌≡◌, IfOk};
ghost use Rattle.ppm_ports.specs.Ports.{port};
ghost use Rattle.ppm_ports.specs.Outside.{ports};
ghost use Rattle.ppm_cli.specs.Words.{AreRun};
ghost use Rattle.ppm_tree.specs.Tree.{tree_of};
ghost use Rattle.ppm_depth.specs.Start.{NamesArrays};
ghost use Rattle.ppm_cut_bounds.specs.Bounds.{IsWithinBounds};
ghost use Rattle.ppm_outcomes.specs.CountedRuns.{CodeHas, ProgramHas, CountedRunMay};
ghost use Rattle.ppm_driver.specs.CountedRunRows.{IsCountedRun};

use crate::complete::runs_complete;
use crate::one_counted_run::counted_answers_are_one;
use crate::one_run::answers_are_one;
use crate::run::{WATCHERS, limits_of, sizes_of};
use ppm_answers::{Answer, Status, deliver};
use ppm_cli::RunOptions;
use ppm_code::Code;
use ppm_loading::{program_code, share_code_to_count};
use ppm_orders::read_task;
use ppm_outcomes::{run_came, run_counts, runs_are_as_programs};
use ppm_plan::{Plan, have_one_answer as plans_have_one_answer};
use ppm_ports::{Silent, Sink, Source};
use ppm_regions::Admitted;
use ppm_threads::drive_counted;
use ppm_words::{Input, NoMemory};
use std::alloc::Global;
use std::sync::Wait;
use std::thread::Threads;

/// Runs the text that is read on a machine whose processors, each a thread, obey the plan of faults
/// and the limits of the options: its arrays or its trap, and what was counted in the run, are
/// written on `out`; why there are no arrays, and what was counted, on `err`. Each step of a
/// processor is a turn of its own then, which takes some five times as long. Where the plan is
/// refused, the source is left unread. It may never return.
pub fn counted_run_command<R: Threads + Wait + Sync, S: Source, K: Sink, E: Sink>(
    rt: &R,
    alloc: Global,
    options: RunOptions,
    faults: &[u8],
    source: &mut S,
    out: &mut K,
    err: &mut E,
) -> Status
    requires options { AreRun options }

    // An answer that the command's causes allow is delivered, and its rows hold.
    ensures { IsCountedRun options faults.now (ports (port S.left S.fault_count source.old source.new)
        (port K.written K.fault_count out.old out.new) (port E.written E.fault_count err.old err.new)) result }
{
    // The rows rest on these laws; the calls do nothing.
    answers_are_one();
    counted_answers_are_one();
    plans_have_one_answer();
    runs_are_as_programs();
    runs_complete();
    let answer = read_answer(rt, alloc, options, faults, source);
    deliver(alloc, &answer, out, err)
}

/// The answer of such a `run`: the plan is read first, and then the source.
fn read_answer<R: Threads + Wait + Sync, S: Source>(
    rt: &R,
    alloc: Global,
    options: RunOptions,
    faults: &[u8],
    source: &mut S,
) -> Answer
    requires options { AreRun options }
    ensures { CountedRunMay options faults.now (port S.left S.fault_count source.old source.new) result }
{
    match read_task(alloc, faults, options.processors, source) {
        Ok((plan, program)) => match counted(rt, alloc, options, &plan, &program) {
            Ok(answer) => answer,
            Err(NoMemory) => Answer::NoMemory,
        },
        Err(answer) => answer,
    }
}

/// What the run of a program comes to, and what is counted in it.
fn counted<R: Threads + Wait + Sync>(
    rt: &R,
    alloc: Global,
    options: RunOptions,
    plan: &Plan,
    program: &Admitted,
) -> Result<Answer, NoMemory>
    requires options { AreRun options }
    requires processors { plan.now.processors ≡ options.processors }
    requires bounded { IsWithinBounds (tree_of program.now) }
    ensures { IfOk result (ProgramHas options plan.now.items (tree_of program.now)) }
{
    let code = program_code(alloc, program)?;
    let answer = counted_code(rt, alloc, options, plan, code, program.input())?;
    Ok(answer)
}

/// What the run of a code on an input comes to, and what is counted in it.
pub(crate) fn counted_code<R: Threads + Wait + Sync>(
    rt: &R,
    alloc: Global,
    options: RunOptions,
    plan: &Plan,
    code: Code,
    input: &Input,
) -> Result<Answer, NoMemory>
    requires options { AreRun options }
    requires processors { plan.now.processors ≡ options.processors }
    requires names { NamesArrays code input.now }
    ensures { IfOk result (CodeHas options plan.now.items code input.now) }
{
    let table = share_code_to_count(alloc, sizes_of(options), code, input, plan.keeper(), true)?;
    let (shared, processors) = table;
    // What the type of its code keeps is known once its parts were seen.
    let _ = shared.code.parts();
    let mut silent = vec![in alloc; Silent; WATCHERS]?;
    let driven = drive_counted(
        rt,
        alloc,
        shared,
        processors,
        plan,
        limits_of(options),
        &mut silent,
    )?;
    let (closed, acts) = driven;
    let ran = run_came(alloc, &closed, input.arrays())?;
    let counts = run_counts(acts, plan.items(), &closed);
    Ok(Answer::RanWith(ran, counts))
}
