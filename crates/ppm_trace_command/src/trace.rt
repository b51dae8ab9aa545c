//! The command `trace`.
ghost use Rattle.std.specs.Prelude.{◌≡◌, IfOk};
ghost use Rattle.ppm_ports.specs.Ports.{port};
ghost use Rattle.ppm_ports.specs.Outside.{ports};
ghost use Rattle.ppm_answers.specs.declared.answer.Answer.TheVariants as answers;
ghost use Rattle.ppm_cli.specs.Words.{AreTraced};
ghost use Rattle.ppm_depth.specs.Start.{NamesArrays};
ghost use Rattle.ppm_tree.specs.Tree.{tree_of};
ghost use Rattle.ppm_cut_bounds.specs.Bounds.{IsWithinBounds};
ghost use Rattle.ppm_trace_command.specs.Traces.{CodeHas, ProgramHas, TraceMay};
ghost use Rattle.ppm_trace_command.specs.Traces.{sizes_of as sizes_in};
ghost use Rattle.ppm_trace_command.specs.TraceRows.{IsTraced};

use crate::one_trace::traces_have_one_answer;
use crate::trace_names::program_names;
use ppm_answers::{Answer, Status, deliver};
use ppm_cli::TraceOptions;
use ppm_code::Code;
use ppm_loading::{Sizes, load_code, program_code};
use ppm_naming::Names;
use ppm_orders::{form_by, read_task};
use ppm_plan::{Schedule, have_one_answer as schedules_have_one_answer};
use ppm_ports::{Sink, Source};
use ppm_regions::Admitted;
use ppm_trace::trace;
use ppm_words::{Input, Items, NoMemory};
use std::alloc::Global;

/// Runs the text that is read, on a machine whose processors act as the schedule says, and tells on
/// `out` so many acts, after so many that are not told, whatever the run comes to; why it tells
/// none on `err`. Where the schedule is refused, the source is left unread.
pub fn trace_command<S: Source, K: Sink, E: Sink>(
    alloc: Global,
    options: TraceOptions,
    schedule: &[u8],
    source: &mut S,
    out: &mut K,
    err: &mut E,
) -> Status
    requires options { AreTraced options }

    // An answer that the command's causes allow is delivered, and its rows hold.
    ensures { IsTraced options schedule.now (ports (port S.left S.fault_count source.old source.new)
        (port K.written K.fault_count out.old out.new) (port E.written E.fault_count err.old err.new)) result }
{
    // The rows rest on these laws; the calls do nothing.
    traces_have_one_answer();
    schedules_have_one_answer();
    let answer = read_answer(alloc, options, schedule, source);
    deliver(alloc, &answer, out, err)
}

/// The answer of `trace`: the schedule is read first, and then the source.
fn read_answer<S: Source>(
    alloc: Global,
    options: TraceOptions,
    schedule: &[u8],
    source: &mut S,
) -> Answer
    requires options { AreTraced options }
    ensures { TraceMay options schedule.now (port S.left S.fault_count source.old source.new) result }
{
    match read_task(alloc, schedule, options.processors, source) {
        Ok((schedule, program)) => match traced(alloc, options, &schedule, &program) {
            Ok(text) => Answer::Traced(Items::from_vec(text)),
            Err(NoMemory) => Answer::NoMemory,
        },
        Err(answer) => answer,
    }
}

/// What is told of a program's run.
fn traced(
    alloc: Global,
    options: TraceOptions,
    schedule: &Schedule,
    program: &Admitted,
) -> Result<Vec<u8>, NoMemory>
    requires options { AreTraced options }
    requires processors { schedule.now.processors ≡ options.processors }
    requires bounded { IsWithinBounds (tree_of program.now) }
    ensures { IfOk result (λ text. ProgramHas options schedule.now.items (tree_of program.now) (answers.Traced text.items)) }
{
    let names = program_names(alloc, program)?;
    let code = program_code(alloc, program)?;
    let text = traced_code(alloc, options, schedule, &names, code, program.input())?;
    Ok(text)
}

/// What is told of the run of a code on an input, by these names of its arrays and procedures.
pub(crate) fn traced_code(
    alloc: Global,
    options: TraceOptions,
    schedule: &Schedule,
    names: &Names,
    code: Code,
    input: &Input,
) -> Result<Vec<u8>, NoMemory>
    requires options { AreTraced options }
    requires processors { schedule.now.processors ≡ options.processors }
    requires arrays { NamesArrays code input.now }
    ensures { IfOk result (λ text. CodeHas options names.now schedule.now.items code input.now (answers.Traced text.items)) }
{
    let mut machine = load_code(alloc, sizes_of(options), code, input, schedule.keeper())?;
    let form = form_by(options.form, options.only);
    let text = trace(
        alloc,
        &mut machine,
        schedule,
        names,
        form,
        options.from,
        options.acts,
    )?;
    Ok(text)
}

/// The machine's sizes, as the options say them.
fn sizes_of(options: TraceOptions) -> Sizes
    ensures { result ≡ sizes_in options }
{
    Sizes {
        processors: options.processors,
        room: options.room,
        slots: options.slots,
        takeover: options.takeover,
    }
}
