//! The command `replay` where what is counted in its run is told.
ghost use Rattle.std.specs.Prelude.{◌≡◌, IfOk};
ghost use Rattle.ppm_ports.specs.Ports.{port};
ghost use Rattle.ppm_ports.specs.Outside.{ports};
ghost use Rattle.ppm_cli.specs.Words.{AreReplayed};
ghost use Rattle.ppm_tree.specs.Tree.{tree_of};
ghost use Rattle.ppm_depth.specs.Start.{NamesArrays};
ghost use Rattle.ppm_cut_bounds.specs.Bounds.{IsWithinBounds};
ghost use Rattle.ppm_replay_command.specs.CountedReplays.{CodeHas, ProgramHas, CountedMay};
ghost use Rattle.ppm_replay_command.specs.CountedReplayRows.{IsCountedReplay};

use crate::one_counted::counted_replays_have_one_answer;
use crate::replay::sizes_of;
use ppm_answers::{Answer, Status, deliver};
use ppm_cli::ReplayOptions;
use ppm_code::Code;
use ppm_loading::{load_code, program_code};
use ppm_orders::read_task;
use ppm_outcomes::{replay_came, runs_are_as_programs};
use ppm_plan::{Schedule, have_one_answer as schedules_have_one_answer};
use ppm_ports::{Sink, Source};
use ppm_regions::Admitted;
use ppm_trace::{count_replay, counts_are_of_turns};
use ppm_words::{Input, NoMemory};
use std::alloc::Global;

/// Replays the text that is read, on a machine whose processors act as the schedule says, with at
/// most so many acts: its arrays or its trap, how many forks and takes there were, and what was
/// counted in the run, are written on `out`; why there are no arrays, and what was counted, on
/// `err`. Where the schedule is refused, the source is left unread.
pub fn counted_replay_command<S: Source, K: Sink, E: Sink>(
    alloc: Global,
    options: ReplayOptions,
    schedule: &[u8],
    source: &mut S,
    out: &mut K,
    err: &mut E,
) -> Status
    requires options { AreReplayed options }

    // An answer that the command's causes allow is delivered, and its rows hold.
    ensures { IsCountedReplay options schedule.now (ports (port S.left S.fault_count source.old source.new)
        (port K.written K.fault_count out.old out.new) (port E.written E.fault_count err.old err.new)) result }
{
    // The rows rest on these laws; the calls do nothing.
    counted_replays_have_one_answer();
    schedules_have_one_answer();
    runs_are_as_programs();
    let answer = read_answer(alloc, options, schedule, source);
    deliver(alloc, &answer, out, err)
}

/// The answer of such a `replay`: the schedule is read first, and then the source.
fn read_answer<S: Source>(
    alloc: Global,
    options: ReplayOptions,
    schedule: &[u8],
    source: &mut S,
) -> Answer
    requires options { AreReplayed options }
    ensures { CountedMay options schedule.now (port S.left S.fault_count source.old source.new) result }
{
    match read_task(alloc, schedule, options.processors, source) {
        Ok((schedule, program)) => match counted(alloc, options, &schedule, &program) {
            Ok(answer) => answer,
            Err(NoMemory) => Answer::NoMemory,
        },
        Err(answer) => answer,
    }
}

/// What the replay of a program comes to, and what is counted in it.
fn counted(
    alloc: Global,
    options: ReplayOptions,
    schedule: &Schedule,
    program: &Admitted,
) -> Result<Answer, NoMemory>
    requires options { AreReplayed options }
    requires processors { schedule.now.processors ≡ options.processors }
    requires bounded { IsWithinBounds (tree_of program.now) }
    ensures { IfOk result (ProgramHas options schedule.now.items (tree_of program.now)) }
{
    let code = program_code(alloc, program)?;
    let answer = counted_code(alloc, options, schedule, code, program.input())?;
    Ok(answer)
}

/// What the replay of a code on an input comes to, and what is counted in it.
pub(crate) fn counted_code(
    alloc: Global,
    options: ReplayOptions,
    schedule: &Schedule,
    code: Code,
    input: &Input,
) -> Result<Answer, NoMemory>
    requires options { AreReplayed options }
    requires processors { schedule.now.processors ≡ options.processors }
    requires names { NamesArrays code input.now }
    ensures { IfOk result (CodeHas options schedule.now.items code input.now) }
{
    // The machine counts as many forks and takes, by this law; the call does nothing.
    counts_are_of_turns();
    let mut machine = load_code(alloc, sizes_of(options), code, input, schedule.keeper())?;
    // What the type of its code keeps is known once its parts were seen.
    let _ = machine.code().parts();
    let counts = count_replay(alloc, &mut machine, schedule, options.turns)?;
    let came = replay_came(alloc, &machine, input.arrays(), options.turns)?;
    Ok(Answer::ReplayedWith(came, counts))
}
