//! The command `strands` by schedules that are drawn.
ghost use Rattle.std.specs.Prelude.{◌≡◌, IfOk, Some};
ghost use Rattle.ppm_ports.specs.Ports.{port};
ghost use Rattle.ppm_ports.specs.Outside.{ports};
ghost use Rattle.ppm_words.specs.Inputs.{IsInput};
ghost use Rattle.ppm_depth.specs.Start.{NamesArrays};
ghost use Rattle.ppm_code.specs.Tidy.{IsTidy};
ghost use Rattle.ppm_racy.specs.Code.{plain_code};
ghost use Rattle.ppm_answers.specs.Reading.{TextMay};
ghost use Rattle.ppm_cli.specs.Words.{AreDrawn};
ghost use Rattle.ppm_strand_runs.specs.Draws.{TellsDrawn};
ghost use Rattle.ppm_strand_runs.specs.Run.{IsRunOf};
ghost use Rattle.ppm_strands_command.specs.Cases.{MayOf, OfTidy};
ghost use Rattle.ppm_strands_command.specs.Drawn.{DrawnHas, DrawnMay, OfDraws};
ghost use Rattle.ppm_strands_command.specs.Drawn.{drawn_answer, schedule_of};
ghost use Rattle.ppm_strands_command.specs.DrawnRows.{AreRunByDraws};
ghost use Rattle.ppm_strands_command.specs.Lines.{drawn_line as line_of_drawn};

use crate::cases::{first_untidy, text_case};
use crate::laws::drawn_strands_have_one_answer;
use crate::lines::{push_items, push_word};
use crate::telling::run_told;
use ppm_answers::{Answer, Status, answer_of_read, deliver};
use ppm_case::CASE_LIMIT;
use ppm_cli::DrawnStrandsOptions;
use ppm_pieces::push_number;
use ppm_plan::StrandItem;
use ppm_ports::{Sink, Source, read_whole};
use ppm_racy::RacyCode;
use ppm_strand_runs::{DrawnRun, Draws, drawn_steps, first_drawn_fall};
use ppm_words::{NamedArray, NoMemory};
use std::alloc::Global;

/// Runs the strands of the case that is read by schedules without faults that are drawn: that
/// nothing falls in any of the runs is written on `out`, or on `err` the schedule of the first one
/// in which something does, what this comes to, and its first fall.
pub fn drawn_strands_command<S: Source, K: Sink, E: Sink>(
    alloc: Global,
    options: DrawnStrandsOptions,
    source: &mut S,
    out: &mut K,
    err: &mut E,
) -> Status
    requires options { AreDrawn options }

    // An answer that the command's causes allow is delivered, and its rows hold.
    ensures { AreRunByDraws options (ports (port S.left S.fault_count source.old source.new)
        (port K.written K.fault_count out.old out.new) (port E.written E.fault_count err.old err.new)) result }
{
    // The rows rest on this law; the call does nothing.
    drawn_strands_have_one_answer();
    let answer = source_answer(alloc, options, source);
    deliver(alloc, &answer, out, err)
}

/// The answer: what is read, to its end or one byte past the limit of a case, is run.
fn source_answer<S: Source>(alloc: Global, options: DrawnStrandsOptions, source: &mut S) -> Answer
    requires options { AreDrawn options }
    ensures { DrawnMay options (port S.left S.fault_count source.old source.new) result }
{
    match read_whole(alloc, source, CASE_LIMIT) {
        Ok(text) => text_answer(alloc, options, &text),
        Err(error) => answer_of_read(error),
    }
}

/// What is said of a text: its fault, or what is said of its case.
fn text_answer(alloc: Global, options: DrawnStrandsOptions, text: &[u8]) -> Answer
    requires options { AreDrawn options }
    ensures { TextMay (DrawnHas options) text.now result }
{
    match text_case(alloc, text) {
        Ok(case) => case_answer(alloc, options, &case.code, case.input.arrays()),
        Err(answer) => answer,
    }
}

/// What is said of a case: its first store that is not tidy, or what its runs come to.
fn case_answer(
    alloc: Global,
    options: DrawnStrandsOptions,
    code: &RacyCode,
    input: &[NamedArray],
) -> Answer
    requires options { AreDrawn options }
    requires named { NamesArrays (plain_code code.now) input.now }
    requires input { IsInput input.now }
    ensures { MayOf (OfTidy (OfDraws options)) code.now input.now result }
{
    let Ok(found) = first_untidy(alloc, code, input) else {
        return Answer::NoMemory;
    };
    match found {
        Some(store) => Answer::Untidy(store),
        None => tidy_answer(alloc, options, code, input),
    }
}

/// What is said of a case whose code is tidy: the first of its runs in which something falls, or
/// that there is none.
fn tidy_answer(
    alloc: Global,
    options: DrawnStrandsOptions,
    code: &RacyCode,
    input: &[NamedArray],
) -> Answer
    requires options { AreDrawn options }
    requires named { NamesArrays (plain_code code.now) input.now }
    requires input { IsInput input.now }
    requires tidy { IsTidy (plain_code code.now) }
    ensures { MayOf (OfTidy (OfDraws options)) code.now input.now result }
{
    match draws_answer(alloc, options, code, input) {
        Ok(answer) => answer,
        Err(NoMemory) => Answer::NoMemory,
    }
}

/// The answer by the draws.
fn draws_answer(
    alloc: Global,
    options: DrawnStrandsOptions,
    code: &RacyCode,
    input: &[NamedArray],
) -> Result<Answer, NoMemory>
    requires options { AreDrawn options }
    requires named { NamesArrays (plain_code code.now) input.now }
    requires input { IsInput input.now }
    ensures { IfOk result (OfDraws options code.now input.now) }
{
    let draws = Draws {
        runs: options.runs,
        seed: options.seed,
        strands: options.strands,
        steps: options.steps,
    };
    let found = first_drawn_fall(alloc, code, input, draws, options.turns)?;
    let answer = found_answer(alloc, options, code, input, &found)?;
    Ok(answer)
}

/// The answer by what was found.
fn found_answer(
    alloc: Global,
    options: DrawnStrandsOptions,
    code: &RacyCode,
    input: &[NamedArray],
    found: &Option<DrawnRun>,
) -> Result<Answer, NoMemory>
    requires options { AreDrawn options }
    requires found { TellsDrawn code.now input.now options.seed options.strands options.steps options.turns options.runs found.now }
    ensures { IfOk result (λ answer. answer ≡ drawn_answer options code.now input.now found.now) }
{
    match found {
        None => Ok(Answer::AllStood(options.runs)),
        Some(drawn) => drawn_told(alloc, options, code, input, drawn),
    }
}

/// The answer of a drawn run, after the line of its schedule.
fn drawn_told(
    alloc: Global,
    options: DrawnStrandsOptions,
    code: &RacyCode,
    input: &[NamedArray],
    drawn: &DrawnRun,
) -> Result<Answer, NoMemory>
    requires options { AreDrawn options }
    requires run { IsRunOf code.now input.now (schedule_of options code.now input.now drawn.now.number) options.turns drawn.now.run }
    ensures { IfOk result (λ answer. answer ≡ drawn_answer options code.now input.now (Some drawn.now)) }
{
    let seed = u64::from(options.seed) + u64::from(drawn.number);
    let items = drawn_steps(alloc, seed, options.strands, options.steps)?;
    let line = drawn_line(alloc, seed, &items)?;
    let answer = run_told(alloc, line, options.form, input, &drawn.run)?;
    Ok(answer)
}

/// The line of a schedule that was drawn by a seed.
fn drawn_line(alloc: Global, seed: u64, items: &[StrandItem]) -> Result<Vec<u8>, NoMemory>
    ensures { IfOk result (λ line. line.items ≡ line_of_drawn seed items.now) }
{
    let mut line = Vec::new(alloc);
    push_word(&mut line, "drawn: seed ")?;
    push_number(&mut line, seed)?;
    push_word(&mut line, " schedule ")?;
    push_items(&mut line, items)?;
    line.push(b'\n')?;
    Ok(line)
}
