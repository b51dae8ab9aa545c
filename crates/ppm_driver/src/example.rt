//! The command `self`: the program makes a source and a plan of its own, and runs it.
ghost use Rattle.std.specs.Prelude.{◌≡◌, IfErr, IfOk, length, map};
ghost use Rattle.ppm_ports.specs.Ports.{Port, port};
ghost use Rattle.ppm_ports.specs.Outside.{KeepFronts, ToldLists, outside};
ghost use Rattle.ppm_answers.specs.Reading.{Answers, TextMay};
ghost use Rattle.ppm_cli.specs.Words.{AreRun, AreSelf};
ghost use Rattle.ppm_tree.specs.Tree.{tree_of};
ghost use Rattle.ppm_cut_bounds.specs.Bounds.{IsWithinBounds};
ghost use Rattle.ppm_program.specs.Programs.{HasProgram};
ghost use Rattle.ppm_plan.specs.Schedules.{Planned};
ghost use Rattle.ppm_loading.specs.Programs.{RefusedHas};
ghost use Rattle.ppm_driver.specs.Examples.{AreForks, ExampleMay, ExampleTells, IsPlanOf, ProgramSums, ProgramWants};
ghost use Rattle.ppm_driver.specs.Examples.{first_value, last_value, run_options_of, text_of};
ghost use Rattle.ppm_driver.specs.ExampleRows.{ExampleRows};
ghost use Rattle.ppm_outcomes.specs.Runs.{ProgramHas};
ghost use Rattle.ppm_outcomes.specs.Watchers.{OthersKeep, watcher_count};

use crate::run::ran;
use crate::sums::examples_sum_up;
use ppm_answers::{Answer, Status, Sums, deliver};
use ppm_cells::Takeover;
use ppm_cli::{RunOptions, SelfOptions};
use ppm_cut::cut;
use ppm_cut_correct::{name_arrays, start_with_input};
use ppm_cut_sound::code_is_sound;
use ppm_depth::depth_first;
use ppm_loading::text_program;
use ppm_outcomes::runs_are_as_programs;
use ppm_plan::{Plan, make_source, seeded_plan};
use ppm_ports::{Sink, Watch};
use ppm_regions::Admitted;
use ppm_words::{Idle, NamedArray, NoMemory};
use std::alloc::Global;
use std::sync::Wait;
use std::thread::Threads;

/// The work turns of a processor in the run of the example: as many as it may have.
const EXAMPLE_TURNS: u64 = 268_435_456;

/// The words of a pool.
const EXAMPLE_ROOM: u32 = 262_144;

/// The entries of a deque.
const EXAMPLE_SLOTS: u32 = 8_192;

/// The looks for work in a row until a processor leaves.
const EXAMPLE_LOOKS: u32 = 1_000;

/// The most capsules of which the depth-first run counts the forks.
const MOST_CAPSULES: u64 = 1 << 40;

/// Makes a source that sums an array by halves and a plan of drawn faults, both by the seed, runs it
/// as `run` would, and writes on `out` how many values and forks there were, the sum and the last
/// value, or on `err` that memory was wanting. It reads nothing, and may never return. There is a watcher
/// for each of 64 processors; those of the run's processors are told every turn. Where one refuses,
/// the answer is out of memory.
pub fn self_command<R: Threads + Wait + Sync, K: Sink, E: Sink, W: Watch>(
    rt: &R,
    alloc: Global,
    options: SelfOptions,
    out: &mut K,
    err: &mut E,
    watch: &mut Vec<W>,
) -> Status
    requires options { AreSelf options }
    requires watchers { length watch.old.items ≡ watcher_count }

    // An answer that the command's causes allow, and its texts, whatever source there is. After a run
    // each processor's watcher was told its turns. Where memory is wanting, or a watcher refused,
    // either nobody was told anything, or the lists are those of one run: up to where watchers
    // refused, or whole. The other watchers are told nothing.
    ensures answers { (source : Port) → let o = outside source
        (port K.written K.fault_count out.old out.new) (port E.written E.fault_count err.old err.new)
        (map W.told watch.old.items) (map W.told watch.new.items)
        in Answers (ExampleMay options o.told_before o.told_now) (ExampleTells options) o result }

    // What follows from each status.
    ensures rows { (source : Port) → ExampleRows options (outside source
        (port K.written K.fault_count out.old out.new) (port E.written E.fault_count err.old err.new)
        (map W.told watch.old.items) (map W.told watch.new.items)) result }

    ensures watchers { length watch.new.items ≡ watcher_count }
{
    // The rows rest on these laws; the calls do nothing.
    runs_are_as_programs();
    examples_sum_up();
    let answer = example_answer(rt, alloc, options, watch);
    deliver(alloc, &answer, out, err)
}

/// The answer of `self`.
fn example_answer<R: Threads + Wait + Sync, W: Watch>(
    rt: &R,
    alloc: Global,
    options: SelfOptions,
    watch: &mut Vec<W>,
) -> Answer
    requires options { AreSelf options }
    requires watchers { length watch.old.items ≡ watcher_count }
    ensures may { ExampleMay options (map W.told watch.old.items) (map W.told watch.new.items) result }
    ensures told { ExampleTells options result (map W.told watch.old.items) (map W.told watch.new.items) }
    ensures kept { KeepFronts (map W.told watch.old.items) (map W.told watch.new.items) }
    ensures watchers { length watch.new.items ≡ watcher_count }
{
    match example(alloc, options) {
        Ok((plan, program)) => match summed(rt, alloc, options, &plan, &program, watch) {
            Ok(answer) => answer,
            Err(NoMemory) => Answer::NoMemory,
        },
        Err(answer) => answer,
    }
}

/// The plan and the program of the example. `Err` is the answer where there is none.
fn example(alloc: Global, options: SelfOptions) -> Result<(Plan, Admitted), Answer>
    requires { AreSelf options }
    ensures plan { IfOk result (λ r. IsPlanOf options r.0) }
    ensures program { IfOk result (λ r. HasProgram (text_of options) (tree_of r.1)) }
    ensures none { IfErr result (TextMay RefusedHas (text_of options)) }
{
    match made(alloc, options) {
        Ok((plan, text)) => {
            let program = text_program(alloc, &text)?;
            Ok((plan, program))
        }
        Err(NoMemory) => Err(Answer::NoMemory),
    }
}

/// The plan and the text of the example.
fn made(alloc: Global, options: SelfOptions) -> Result<(Plan, Vec<u8>), NoMemory>
    requires { AreSelf options }
    ensures plan { IfOk result (λ r. IsPlanOf options r.0) }
    ensures text { IfOk result (λ r. r.1.items ≡ text_of options) }
{
    let plan = seeded_plan(alloc, options.seed, options.processors, options.count)?;
    let text = make_source(alloc, options.size, options.seed)?;
    Ok((plan, text))
}

/// What the run of the example's program comes to.
fn summed<R: Threads + Wait + Sync, W: Watch>(
    rt: &R,
    alloc: Global,
    options: SelfOptions,
    plan: &Plan,
    program: &Admitted,
    watch: &mut Vec<W>,
) -> Result<Answer, NoMemory>
    requires options { AreSelf options }
    requires plan { IsPlanOf options plan.now }
    requires bounded { IsWithinBounds (tree_of program.now) }
    requires watchers { length watch.old.items ≡ watcher_count }
    ensures has { IfOk result (ProgramSums options (map W.told watch.old.items) (map W.told watch.new.items) (tree_of program.now)) }
    ensures wants { IfErr result (λ _. ProgramWants options (map W.told watch.old.items) (map W.told watch.new.items) (tree_of program.now)) }
    ensures kept { KeepFronts (map W.told watch.old.items) (map W.told watch.new.items) }
    ensures others { OthersKeep options.processors (map W.told watch.old.items) (map W.told watch.new.items) }
    ensures watchers { length watch.new.items ≡ watcher_count }
{
    let answer = ran(rt, alloc, run_options(options), plan, program, watch)?;
    with_sums(alloc, options, program, answer)
}

/// The answer of a run of the example's program, with sums in place of its arrays.
fn with_sums(
    alloc: Global,
    options: SelfOptions,
    program: &Admitted,
    answer: Answer,
) -> Result<Answer, NoMemory>
    requires bounded { IsWithinBounds (tree_of program.now) }
    ensures { (before now : ToldLists) (plan : Planned) → IsPlanOf options plan
        → ProgramHas (run_options_of options) options.processors before now plan.items (tree_of program.now) answer
        → IfOk result (ProgramSums options before now (tree_of program.now)) }
{
    match answer {
        Answer::Ended(arrays) => {
            let forks = forks_of(alloc, program)?;
            let sums = sums_of(options.size, forks, arrays.as_slice());
            Ok(Answer::Summed(sums))
        }
        _ => Ok(answer),
    }
}

/// How many forks the program's code makes, run depth first.
fn forks_of(alloc: Global, program: &Admitted) -> Result<u64, NoMemory>
    requires { IsWithinBounds (tree_of program.now) }
    ensures { IfOk result (AreForks (tree_of program.now)) }
{
    // The code is sound and its root names arrays of what the program starts with; the calls do
    // nothing.
    start_with_input();
    name_arrays();
    code_is_sound();
    // What the type of its tree keeps is known once its tree was seen.
    let _ = program.program().tree();
    let code = cut(alloc, program.program())?;
    let run = depth_first(alloc, &code, program.input(), MOST_CAPSULES)?;
    Ok(run.forks)
}

/// The sums of these arrays, of which the first one is summed.
fn sums_of(size: u32, forks: u64, arrays: &[NamedArray]) -> Sums
    ensures size { result.size ≡ size }
    ensures forks { result.forks ≡ forks }
    ensures sum { result.sum ≡ first_value arrays.now }
    ensures last { result.last ≡ last_value arrays.now }
{
    match arrays {
        [array, ..] => {
            let values = array.values.as_slice();
            let sum = values.first().copied().unwrap_or(0);
            let last = values.last().copied().unwrap_or(0);
            Sums {
                size,
                forks,
                sum,
                last,
            }
        }
        [] => Sums {
            size,
            forks,
            sum: 0,
            last: 0,
        },
    }
}

/// The options of `run` with which the example is run.
fn run_options(options: SelfOptions) -> RunOptions
    requires { AreSelf options }
    ensures value { result ≡ run_options_of options }
    ensures in_range { AreRun result }
{
    RunOptions {
        processors: options.processors,
        turns: EXAMPLE_TURNS,
        room: EXAMPLE_ROOM,
        slots: EXAMPLE_SLOTS,
        looks: EXAMPLE_LOOKS,
        seed: options.seed,
        takeover: Takeover::ByPlaces,
        idle: Idle::Leave,
    }
}
