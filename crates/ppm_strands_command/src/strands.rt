//! The command `strands` by a schedule.
ghost use Rattle.std.specs.Prelude.{◌≡◌, IfOk};
ghost use Rattle.ppm_ports.specs.Ports.{port};
ghost use Rattle.ppm_ports.specs.Outside.{ports};
ghost use Rattle.ppm_case.specs.Rules.{case_limit};
ghost use Rattle.ppm_words.specs.Inputs.{IsInput};
ghost use Rattle.ppm_depth.specs.Start.{NamesArrays};
ghost use Rattle.ppm_code.specs.Tidy.{IsTidy};
ghost use Rattle.ppm_racy.specs.Code.{plain_code};
ghost use Rattle.ppm_answers.specs.Reading.{JudgingMay, TextMay};
ghost use Rattle.ppm_cli.specs.Words.{AreOfStrands};
ghost use Rattle.ppm_strands_command.specs.Cases.{MayOf, OfTidy};
ghost use Rattle.ppm_strands_command.specs.Strands.{OfSchedule, StrandsMay, TextHas};
ghost use Rattle.ppm_strands_command.specs.StrandsRows.{AreRunBySchedule};

use crate::cases::{first_untidy, text_case};
use crate::laws::strands_have_one_answer;
use crate::telling::run_told;
use ppm_answers::{Answer, Status, answer_of_read, deliver};
use ppm_case::CASE_LIMIT;
use ppm_cli::StrandsOptions;
use ppm_loading::refusal_answer;
use ppm_plan::{StrandItem, have_one_answer as schedules_have_one_answer, read_strands};
use ppm_ports::{Sink, Source, read_whole};
use ppm_racy::RacyCode;
use ppm_strand_runs::run_strands;
use ppm_words::{NamedArray, NoMemory};
use std::alloc::Global;

/// Runs the strands of the case that is read by the schedule, and then in rounds: where all that
/// capsules have settled stands after each turn, the arrays or the trap are written on `out`, or
/// that it has not ended on `err`; else what it came to and the first fall are written on `err`.
/// Where the schedule is refused, the source is left unread.
pub fn strands_command<S: Source, K: Sink, E: Sink>(
    alloc: Global,
    options: StrandsOptions,
    schedule: &[u8],
    source: &mut S,
    out: &mut K,
    err: &mut E,
) -> Status
    requires options { AreOfStrands options }

    // An answer that the command's causes allow is delivered, and its rows hold.
    ensures { AreRunBySchedule options schedule.now (ports (port S.left S.fault_count source.old source.new)
        (port K.written K.fault_count out.old out.new) (port E.written E.fault_count err.old err.new)) result }
{
    // The rows rest on these laws; the calls do nothing.
    strands_have_one_answer();
    schedules_have_one_answer();
    let answer = read_answer(alloc, options, schedule, source);
    deliver(alloc, &answer, out, err)
}

/// The answer: the schedule is read first, and then the source.
fn read_answer<S: Source>(
    alloc: Global,
    options: StrandsOptions,
    schedule: &[u8],
    source: &mut S,
) -> Answer
    requires options { AreOfStrands options }
    ensures { StrandsMay options schedule.now (port S.left S.fault_count source.old source.new) result }
{
    // The answer rests on this law; the call does nothing.
    schedules_have_one_answer();
    match read_strands(alloc, schedule) {
        Ok(items) => source_answer(alloc, options, &items, source),
        Err(error) => refusal_answer(error),
    }
}

/// The answer by the items of a schedule: what is read, to its end or one byte past the limit of a
/// case, is run.
fn source_answer<S: Source>(
    alloc: Global,
    options: StrandsOptions,
    items: &[StrandItem],
    source: &mut S,
) -> Answer
    requires options { AreOfStrands options }
    ensures { JudgingMay case_limit (TextHas options items.now)
        (port S.left S.fault_count source.old source.new) result }
{
    match read_whole(alloc, source, CASE_LIMIT) {
        Ok(text) => text_answer(alloc, options, items, &text),
        Err(error) => answer_of_read(error),
    }
}

/// What is said of a text: its fault, or what is said of its case.
fn text_answer(alloc: Global, options: StrandsOptions, items: &[StrandItem], text: &[u8]) -> Answer
    requires options { AreOfStrands options }
    ensures { TextMay (TextHas options items.now) text.now result }
{
    match text_case(alloc, text) {
        Ok(case) => case_answer(alloc, options, items, &case.code, case.input.arrays()),
        Err(answer) => answer,
    }
}

/// What is said of a case: its first store that is not tidy, or what its run comes to.
fn case_answer(
    alloc: Global,
    options: StrandsOptions,
    items: &[StrandItem],
    code: &RacyCode,
    input: &[NamedArray],
) -> Answer
    requires options { AreOfStrands options }
    requires named { NamesArrays (plain_code code.now) input.now }
    requires input { IsInput input.now }
    ensures { MayOf (OfTidy (OfSchedule options items.now)) code.now input.now result }
{
    let Ok(found) = first_untidy(alloc, code, input) else {
        return Answer::NoMemory;
    };
    match found {
        Some(store) => Answer::Untidy(store),
        None => tidy_answer(alloc, options, items, code, input),
    }
}

/// What is said of a case whose code is tidy: what its run comes to.
fn tidy_answer(
    alloc: Global,
    options: StrandsOptions,
    items: &[StrandItem],
    code: &RacyCode,
    input: &[NamedArray],
) -> Answer
    requires options { AreOfStrands options }
    requires named { NamesArrays (plain_code code.now) input.now }
    requires input { IsInput input.now }
    requires tidy { IsTidy (plain_code code.now) }
    ensures { MayOf (OfTidy (OfSchedule options items.now)) code.now input.now result }
{
    match schedule_answer(alloc, options, items, code, input) {
        Ok(answer) => answer,
        Err(NoMemory) => Answer::NoMemory,
    }
}

/// The answer of the run by a schedule.
fn schedule_answer(
    alloc: Global,
    options: StrandsOptions,
    items: &[StrandItem],
    code: &RacyCode,
    input: &[NamedArray],
) -> Result<Answer, NoMemory>
    requires options { AreOfStrands options }
    requires named { NamesArrays (plain_code code.now) input.now }
    requires input { IsInput input.now }
    ensures { IfOk result (OfSchedule options items.now code.now input.now) }
{
    let run = run_strands(alloc, code, input, items, options.turns)?;
    let front = Vec::new(alloc);
    let answer = run_told(alloc, front, options.form, input, &run)?;
    Ok(answer)
}
