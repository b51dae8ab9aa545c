//! The command `depth`.
ghost use Rattle.std.specs.Prelude.{◌≡◌, ◌≤◌, ◌^◌};
ghost use Rattle.ppm_ports.specs.Ports.{port};
ghost use Rattle.ppm_ports.specs.Outside.{ports};
ghost use Rattle.ppm_code.specs.Tidy.{IsTidy};
ghost use Rattle.ppm_depth.specs.Run.{IsDepthRun};
ghost use Rattle.ppm_depth.specs.Start.{NamesArrays};
ghost use Rattle.ppm_answers.specs.Reading.{TextMay};
ghost use Rattle.ppm_commands.specs.Depth.{DepthHas, DepthMay, DepthMayOf};
ghost use Rattle.ppm_commands.specs.Depth.{IsRunDepthFirst, run_answer as answer_of};

use crate::laws::depth_runs_have_one_answer;
use ppm_answers::{Answer, Status, answer_of_read, deliver};
use ppm_case::CASE_LIMIT;
use ppm_code::Code;
use ppm_depth::{DepthRun, depth_first};
use ppm_loading::{array_count, counts_told, store_told, text_case};
use ppm_ports::{Sink, Source, read_whole};
use ppm_war::untidy;
use ppm_words::{Input, NoMemory, Outcome};
use std::alloc::Global;

/// Runs the case that is read depth first, within so many capsules, 2^40 at most: its arrays or its
/// trap and the counts are written on `out`, its refusal or that it takes more capsules on `err`.
pub fn depth_command<S: Source, K: Sink, E: Sink>(
    alloc: Global,
    capsules: u64,
    source: &mut S,
    out: &mut K,
    err: &mut E,
) -> Status
    requires few { capsules ≤ 2 ^ 40 }
    // An answer that the command's causes allow is delivered, and its rows hold.
    ensures { IsRunDepthFirst capsules (ports (port S.left S.fault_count source.old source.new)
        (port K.written K.fault_count out.old out.new) (port E.written E.fault_count err.old err.new)) result }
{
    // The rows rest on this law; the call does nothing.
    depth_runs_have_one_answer();
    let answer = depth_answer(alloc, capsules, source);
    deliver(alloc, &answer, out, err)
}

/// The answer of `depth`: what is read, to its end or one byte past the limit of a case, is run.
fn depth_answer<S: Source>(alloc: Global, capsules: u64, source: &mut S) -> Answer
    requires few { capsules ≤ 2 ^ 40 }
    ensures { DepthMay capsules (port S.left S.fault_count source.old source.new) result }
{
    match read_whole(alloc, source, CASE_LIMIT) {
        Ok(text) => text_answer(alloc, capsules, &text),
        Err(error) => answer_of_read(error),
    }
}

/// What `depth` says of a text: its fault, or what is said of its case.
fn text_answer(alloc: Global, capsules: u64, text: &[u8]) -> Answer
    requires few { capsules ≤ 2 ^ 40 }
    ensures { TextMay (DepthHas capsules) text.now result }
{
    match text_case(alloc, text) {
        Ok(case) => case_answer(alloc, capsules, &case.code, &case.input),
        Err(answer) => answer,
    }
}

/// What `depth` says of a case: its first untidy store, or what its run comes to.
fn case_answer(alloc: Global, capsules: u64, code: &Code, input: &Input) -> Answer
    requires few { capsules ≤ 2 ^ 40 }
    requires named { NamesArrays code.now input.now }
    ensures { DepthMayOf capsules code.now input.now result }
{
    match untidy(code) {
        Some(store) => Answer::Untidy(store_told(code, array_count(input), store)),
        None => tidy_answer(alloc, capsules, code, input),
    }
}

/// What `depth` says of a case whose code is tidy.
fn tidy_answer(alloc: Global, capsules: u64, code: &Code, input: &Input) -> Answer
    requires few { capsules ≤ 2 ^ 40 }
    requires named { NamesArrays code.now input.now }
    requires tidy { IsTidy code.now }
    ensures { DepthMayOf capsules code.now input.now result }
{
    match depth_first(alloc, code, input, capsules) {
        Ok(done) => run_answer(capsules, done),
        Err(NoMemory) => Answer::NoMemory,
    }
}

/// The answer of a run within so many capsules.
fn run_answer(capsules: u64, run: DepthRun) -> Answer
    ensures { result ≡ answer_of capsules run }
{
    let counts = counts_told(&run);
    match run.outcome {
        Outcome::Ended(arrays) => Answer::Counted(arrays, counts),
        Outcome::Trapped(trap, line) => Answer::TrappedAfter(trap, line, counts),
        Outcome::NotWithin => Answer::NotWithinCapsules(capsules),
    }
}
