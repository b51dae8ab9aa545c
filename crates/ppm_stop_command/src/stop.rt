//! The command `stop`.
ghost use Rattle.std.specs.Prelude.{◌≡◌, IfOk};
ghost use Rattle.ppm_ports.specs.Ports.{port};
ghost use Rattle.ppm_ports.specs.Outside.{ports};
ghost use Rattle.ppm_answers.specs.declared.answer.Answer.TheVariants as answers;
ghost use Rattle.ppm_cli.specs.Words.{AreStopped};
ghost use Rattle.ppm_depth.specs.Start.{NamesArrays};
ghost use Rattle.ppm_saved.specs.Names.{AreNames};
ghost use Rattle.ppm_tree.specs.Tree.{tree_of};
ghost use Rattle.ppm_cut_bounds.specs.Bounds.{IsWithinBounds};
ghost use Rattle.ppm_outcomes.specs.Stops.{CodeReads, ProgramReads, StopMay, names_of as names_in, sizes_of as sizes_in};
ghost use Rattle.ppm_stop_command.specs.StopRows.{IsStopped};

use crate::one_stop::stops_have_one_answer;
use ppm_answers::{Answer, Status, deliver};
use ppm_cells::Takeover;
use ppm_cli::StopOptions;
use ppm_code::Code;
use ppm_cut_sound::{may_be_stopped, store_tidily};
use ppm_following::follow;
use ppm_loading::{Sizes, load_code, program_code};
use ppm_orders::read_task;
use ppm_outcomes::names_of;
use ppm_plan::{Schedule, have_one_answer as schedules_have_one_answer};
use ppm_ports::{Sink, Source};
use ppm_regions::Admitted;
use ppm_saved::{saved_texts_tell_states, write_saved};
use ppm_words::{Input, Items, NoMemory};
use std::alloc::Global;

/// Runs the text that is read, on a machine whose processors act as the schedule says, for so many
/// acts, those of the schedule among them, and writes the saved text of the machine then on `out`,
/// whatever its finish word is; why there is none on `err`. That state is read back from the text.
/// Where the schedule is refused, the source is left unread.
pub fn stop_command<S: Source, K: Sink, E: Sink>(
    alloc: Global,
    options: StopOptions,
    schedule: &[u8],
    source: &mut S,
    out: &mut K,
    err: &mut E,
) -> Status
    requires options { AreStopped options }

    // An answer that the command's causes allow is delivered, and its rows hold.
    ensures { IsStopped options schedule.now (ports (port S.left S.fault_count source.old source.new)
        (port K.written K.fault_count out.old out.new) (port E.written E.fault_count err.old err.new)) result }
{
    // The rows rest on these laws; the calls do nothing.
    stops_have_one_answer();
    schedules_have_one_answer();
    let answer = read_answer(alloc, options, schedule, source);
    deliver(alloc, &answer, out, err)
}

/// The answer of `stop`: the schedule is read first, and then the source.
fn read_answer<S: Source>(
    alloc: Global,
    options: StopOptions,
    schedule: &[u8],
    source: &mut S,
) -> Answer
    requires options { AreStopped options }
    ensures { StopMay options schedule.now (port S.left S.fault_count source.old source.new) result }
{
    match read_task(alloc, schedule, options.processors, source) {
        Ok((schedule, program)) => match stopped(alloc, options, &schedule, &program) {
            Ok(text) => Answer::Saved(Items::from_vec(text)),
            Err(NoMemory) => Answer::NoMemory,
        },
        Err(answer) => answer,
    }
}

/// The saved text of a program's run.
fn stopped(
    alloc: Global,
    options: StopOptions,
    schedule: &Schedule,
    program: &Admitted,
) -> Result<Vec<u8>, NoMemory>
    requires options { AreStopped options }
    requires processors { schedule.now.processors ≡ options.processors }
    requires bounded { IsWithinBounds (tree_of program.now) }
    ensures { IfOk result (λ text. ProgramReads options schedule.now.items (tree_of program.now) (answers.Saved text.items)) }
{
    // What the type of its tree keeps is known once its tree was seen.
    let _ = program.program().tree();
    // Its code may be resumed, by these laws; the calls do nothing.
    may_be_stopped();
    store_tidily();
    let code = program_code(alloc, program)?;
    let text = stopped_code(alloc, options, schedule, code, program.input())?;
    Ok(text)
}

/// The saved text of the run of a code on an input, whose arrays have names of their own.
pub(crate) fn stopped_code(
    alloc: Global,
    options: StopOptions,
    schedule: &Schedule,
    code: Code,
    input: &Input,
) -> Result<Vec<u8>, NoMemory>
    requires options { AreStopped options }
    requires processors { schedule.now.processors ≡ options.processors }
    requires arrays { NamesArrays code input.now }
    requires names { AreNames (names_in input.now) }
    ensures { IfOk result (λ text. CodeReads options schedule.now.items code input.now (answers.Saved text.items)) }
{
    // No other state has the text, by this law; the call does nothing.
    saved_texts_tell_states();
    // What the type of the code keeps is known once its parts were seen.
    let _ = code.parts();
    let names = names_of(alloc, input.arrays())?;
    let mut machine = load_code(alloc, sizes_of(options), code, input, schedule.keeper())?;
    follow(&mut machine, schedule, options.after);
    let capsules = machine.code();
    let text = write_saved(alloc, capsules, machine.shape(), &names, machine.words())?;
    Ok(text)
}

/// The machine's sizes, as the options say them; a place is taken over as a whole.
fn sizes_of(options: StopOptions) -> Sizes
    ensures { result ≡ sizes_in options }
{
    Sizes {
        processors: options.processors,
        room: options.room,
        slots: options.slots,
        takeover: Takeover::ByPlaces,
    }
}
