//! The command `ram`.
ghost use Rattle.std.specs.Prelude.{◌≡◌, IfErr, IfOk, length, map};
ghost use Rattle.ppm_ports.specs.Ports.{port};
ghost use Rattle.ppm_ports.specs.Outside.{KeepFronts, outside};
ghost use Rattle.ppm_ram.specs.Program.{memory_of};
ghost use Rattle.ppm_ram_code.specs.Code.{code_of};
ghost use Rattle.ppm_ram_code.specs.Correct.{input_of};
ghost use Rattle.ppm_answers.specs.Reading.{Answers};
ghost use Rattle.ppm_cli.specs.Words.{AreRun};
ghost use Rattle.ppm_driver.specs.RamEnds.{RamHas};
ghost use Rattle.ppm_driver.specs.RamRows.{RamRows};
ghost use Rattle.ppm_driver.specs.RamRuns.{RamMay, RamTells};
ghost use Rattle.ppm_outcomes.specs.Runs.{CodeWants};
ghost use Rattle.ppm_outcomes.specs.Watchers.{OthersKeep, watcher_count};

use crate::as_code::answers_are_as_rams;
use crate::one_ram::ram_answers_are_one;
use crate::run::ran_code;
use ppm_answers::{Answer, Status, deliver};
use ppm_cli::RunOptions;
use ppm_orders::read_task;
use ppm_plan::{Plan, have_one_answer as plans_have_one_answer};
use ppm_ports::{Sink, Source, Watch};
use ppm_ram::{Ram, texts_are_of_rams};
use ppm_ram_code::{ram_code, ram_input};
use ppm_words::NoMemory;
use std::alloc::Global;
use std::sync::Wait;
use std::thread::Threads;

/// Runs the RAM whose text is read, as capsules on a machine whose processors, each a thread, obey
/// the plan of faults and the limits of the options: its memory as the array `m`, or its trap, is
/// written on `out`, why there is none on `err`. Where the plan is refused, the source is left
/// unread. It may never return. There is a watcher for each of 64 processors; those of the run's
/// processors are told every turn, and where they park. Where one refuses, the answer is out of
/// memory.
pub fn ram_command<R: Threads + Wait + Sync, S: Source, K: Sink, E: Sink, W: Watch>(
    rt: &R,
    alloc: Global,
    options: RunOptions,
    faults: &[u8],
    source: &mut S,
    out: &mut K,
    err: &mut E,
    watch: &mut Vec<W>,
) -> Status
    requires options { AreRun options }
    requires watchers { length watch.old.items ≡ watcher_count }

    // An answer that the command's causes allow, and its texts. After a run each processor's
    // watcher was told its turns, and where it parked. Where memory is wanting, or a watcher
    // refused, either nobody was told anything, or the lists are those of one run: up to where
    // watchers refused, or whole. The other watchers are told nothing.
    ensures answers { let o = outside (port S.left S.fault_count source.old source.new)
        (port K.written K.fault_count out.old out.new) (port E.written E.fault_count err.old err.new)
        (map W.told watch.old.items) (map W.told watch.new.items)
        in Answers (RamMay options options.processors faults.now o.told_before o.told_now o.source)
        (RamTells options options.processors faults.now o.source) o result }

    // What follows from each status.
    ensures rows { RamRows options options.processors faults.now (outside (port S.left S.fault_count source.old source.new)
        (port K.written K.fault_count out.old out.new) (port E.written E.fault_count err.old err.new)
        (map W.told watch.old.items) (map W.told watch.new.items)) result }

    ensures watchers { length watch.new.items ≡ watcher_count }
{
    // The rows rest on these laws; the calls do nothing.
    texts_are_of_rams();
    ram_answers_are_one();
    plans_have_one_answer();
    answers_are_as_rams();
    let answer = read_answer(rt, alloc, options, faults, source, watch);
    deliver(alloc, &answer, out, err)
}

/// The answer of `ram`: the plan is read first, and then the source.
fn read_answer<R: Threads + Wait + Sync, S: Source, W: Watch>(
    rt: &R,
    alloc: Global,
    options: RunOptions,
    faults: &[u8],
    source: &mut S,
    watch: &mut Vec<W>,
) -> Answer
    requires options { AreRun options }
    requires watchers { length watch.old.items ≡ watcher_count }
    ensures may { RamMay options options.processors faults.now (map W.told watch.old.items) (map W.told watch.new.items)
        (port S.left S.fault_count source.old source.new) result }
    ensures told { RamTells options options.processors faults.now (port S.left S.fault_count source.old source.new) result
        (map W.told watch.old.items) (map W.told watch.new.items) }
    ensures kept { KeepFronts (map W.told watch.old.items) (map W.told watch.new.items) }
    ensures watchers { length watch.new.items ≡ watcher_count }
{
    match read_task(alloc, faults, options.processors, source) {
        Ok((plan, ram)) => match ran_ram(rt, alloc, options, &plan, &ram, watch) {
            Ok(answer) => answer,
            Err(NoMemory) => Answer::NoMemory,
        },
        Err(answer) => answer,
    }
}

/// What the run of a RAM comes to: of its code on its memory.
fn ran_ram<R: Threads + Wait + Sync, W: Watch>(
    rt: &R,
    alloc: Global,
    options: RunOptions,
    plan: &Plan,
    ram: &Ram,
    watch: &mut Vec<W>,
) -> Result<Answer, NoMemory>
    requires options { AreRun options }
    requires processors { plan.now.processors ≡ options.processors }
    requires watchers { length watch.old.items ≡ watcher_count }
    ensures has { IfOk result (RamHas ram.now options options.processors (map W.told watch.old.items) (map W.told watch.new.items)
        plan.now.items) }
    ensures wants { IfErr result (λ _. CodeWants options options.processors (map W.told watch.old.items)
        (map W.told watch.new.items) plan.now.items (code_of ram.now) (input_of (memory_of ram.now))) }
    ensures kept { KeepFronts (map W.told watch.old.items) (map W.told watch.new.items) }
    ensures others { OthersKeep options.processors (map W.told watch.old.items) (map W.told watch.new.items) }
    ensures watchers { length watch.new.items ≡ watcher_count }
{
    let code = ram_code(alloc, ram)?;
    let input = ram_input(alloc, ram)?;
    let answer = ran_code(rt, alloc, options, plan, code, &input, watch)?;
    Ok(answer)
}
