//! The command `races`.
ghost use Rattle.std.specs.Prelude.{◌≡◌, ◌≤◌, ◌^◌};
ghost use Rattle.ppm_ports.specs.Ports.{port};
ghost use Rattle.ppm_ports.specs.Outside.{ports};
ghost use Rattle.ppm_words.specs.Limits.{array_limit};
ghost use Rattle.ppm_code.specs.Free.{IsFree};
ghost use Rattle.ppm_code.specs.Tidy.{IsTidy};
ghost use Rattle.ppm_depth.specs.Start.{NamesArrays};
ghost use Rattle.ppm_races.specs.Verdicts.{IsVerdict};
ghost use Rattle.ppm_races.specs.declared.judging.Verdict.TheVariants.{Races};
ghost use Rattle.ppm_answers.specs.Reading.{TextMay};
ghost use Rattle.ppm_commands.specs.Races.{RacesHas, RacesMay, RacesMayOf, AreSought};
ghost use Rattle.ppm_commands.specs.Races.{conflict_answer as answer_of_conflict};

use crate::check::conflict_told;
use crate::laws::cases_have_one_answer;
use crate::race::race_told;
use ppm_answers::{Answer, Status, answer_of_read, deliver};
use ppm_case::CASE_LIMIT;
use ppm_code::Code;
use ppm_loading::{array_count, counts_told, line_at, store_told, text_case};
use ppm_ports::{Sink, Source, read_whole};
use ppm_races::{Race, Verdict, races};
use ppm_war::{Conflict, check, untidy};
use ppm_words::{Input, NoMemory};
use std::alloc::Global;

/// Seeks races of the case that is read within so many capsules, 2^40 at most: that its code is
/// sound with its arrays is written on `out`, with the counts of its run; its first conflict, its
/// first untidy store, its first race, that it takes more capsules, or its refusal on `err`.
pub fn races_command<S: Source, K: Sink, E: Sink>(
    alloc: Global,
    capsules: u64,
    source: &mut S,
    out: &mut K,
    err: &mut E,
) -> Status
    requires few { capsules ≤ 2 ^ 40 }
    // An answer that the command's causes allow is delivered, and its rows hold.
    ensures { AreSought capsules (ports (port S.left S.fault_count source.old source.new)
        (port K.written K.fault_count out.old out.new) (port E.written E.fault_count err.old err.new)) result }
{
    // The rows rest on this law; the call does nothing.
    cases_have_one_answer();
    let answer = races_answer(alloc, capsules, source);
    deliver(alloc, &answer, out, err)
}

/// The answer of `races`: what is read, to its end or one byte past the limit of a case, is judged.
fn races_answer<S: Source>(alloc: Global, capsules: u64, source: &mut S) -> Answer
    requires few { capsules ≤ 2 ^ 40 }
    ensures { RacesMay capsules (port S.left S.fault_count source.old source.new) result }
{
    match read_whole(alloc, source, CASE_LIMIT) {
        Ok(text) => text_answer(alloc, capsules, &text),
        Err(error) => answer_of_read(error),
    }
}

/// What `races` says of a text: its fault, or what is said of its case.
fn text_answer(alloc: Global, capsules: u64, text: &[u8]) -> Answer
    requires few { capsules ≤ 2 ^ 40 }
    ensures { TextMay (RacesHas capsules) text.now result }
{
    match text_case(alloc, text) {
        Ok(case) => case_answer(alloc, capsules, &case.code, &case.input),
        Err(answer) => answer,
    }
}

/// What `races` says of a case: its first conflict, or what is said of it as of one without.
fn case_answer(alloc: Global, capsules: u64, code: &Code, input: &Input) -> Answer
    requires few { capsules ≤ 2 ^ 40 }
    requires named { NamesArrays code.now input.now }
    ensures { RacesMayOf capsules code.now input.now result }
{
    match check(code) {
        Ok(_) => free_answer(alloc, capsules, code, input),
        Err(conflict) => conflict_answer(code, array_count(input), conflict),
    }
}

/// The answer of a code with a conflict, of a case with so many arrays.
fn conflict_answer(code: &Code, arrays: usize, conflict: Conflict) -> Answer
    requires { arrays ≤ array_limit }
    ensures { result ≡ answer_of_conflict arrays code.now conflict }
{
    Answer::ConflictingAt(
        conflict_told(conflict),
        line_at(code, arrays, conflict.capsule, conflict.read_at),
        line_at(code, arrays, conflict.capsule, conflict.write_at),
    )
}

/// What `races` says of a case whose code has no conflict: its first untidy store, or its verdict.
fn free_answer(alloc: Global, capsules: u64, code: &Code, input: &Input) -> Answer
    requires few { capsules ≤ 2 ^ 40 }
    requires named { NamesArrays code.now input.now }
    requires free { IsFree code.now }
    ensures { RacesMayOf capsules code.now input.now result }
{
    match untidy(code) {
        Some(store) => Answer::Untidy(store_told(code, array_count(input), store)),
        None => tidy_answer(alloc, capsules, code, input),
    }
}

/// What `races` says of a case whose code has no conflict and is tidy.
fn tidy_answer(alloc: Global, capsules: u64, code: &Code, input: &Input) -> Answer
    requires few { capsules ≤ 2 ^ 40 }
    requires named { NamesArrays code.now input.now }
    requires free { IsFree code.now }
    requires tidy { IsTidy code.now }
    ensures { RacesMayOf capsules code.now input.now result }
{
    match races(alloc, code, input, capsules) {
        Ok(verdict) => verdict_answer(alloc, capsules, code, input, verdict),
        Err(NoMemory) => Answer::NoMemory,
    }
}

/// The answer of a verdict within so many capsules.
fn verdict_answer(
    alloc: Global,
    capsules: u64,
    code: &Code,
    input: &Input,
    verdict: Verdict,
) -> Answer
    requires free { IsFree code.now }
    requires tidy { IsTidy code.now }
    requires verdict { IsVerdict code.now input.now capsules verdict }
    ensures { RacesMayOf capsules code.now input.now result }
{
    match verdict {
        Verdict::Calm(done) => Answer::Sound(counts_told(&done)),
        Verdict::Races(race) => race_answer(alloc, capsules, code, input, race),
        Verdict::NotWithin => Answer::NotWithinCapsules(capsules),
    }
}

/// The answer of a first race within so many capsules.
fn race_answer(alloc: Global, capsules: u64, code: &Code, input: &Input, race: Race) -> Answer
    requires free { IsFree code.now }
    requires tidy { IsTidy code.now }
    requires first { IsVerdict code.now input.now capsules (Races race) }
    ensures { RacesMayOf capsules code.now input.now result }
{
    match race_told(alloc, code, input.arrays(), race) {
        Ok(told) => Answer::Raced(told),
        Err(NoMemory) => Answer::NoMemory,
    }
}
