//! The command `serial`.
ghost use Rattle.std.specs.Prelude.{◌≡◌};
ghost use Rattle.ppm_ports.specs.Ports.{port};
ghost use Rattle.ppm_ports.specs.Outside.{ports};
ghost use Rattle.ppm_tree.specs.Tree.{tree_of};
ghost use Rattle.ppm_answers.specs.Reading.{TextMay};
ghost use Rattle.ppm_commands.specs.Serial.{SerialHas, TreeMay, SerialMay, IsInterpreted};

use crate::laws::outcomes_have_one_answer;
use ppm_answers::{Answer, Status, answer_of_read, deliver};
use ppm_ports::{Sink, Source, read_whole};
use ppm_program::{JudgeError, program_of};
use ppm_serial::serial;
use ppm_text::TEXT_LIMIT;
use ppm_tree::Program;
use ppm_words::{NoMemory, Outcome};
use std::alloc::Global;

/// Runs the text that is read within so many turns of the serial meaning: its arrays or its trap
/// are written on `out`, its refusal or that it takes more turns on `err`.
pub fn serial_command<S: Source, K: Sink, E: Sink>(
    alloc: Global,
    turns: u64,
    source: &mut S,
    out: &mut K,
    err: &mut E,
) -> Status
    // An answer that the command's causes allow is delivered, and its rows hold.
    ensures { IsInterpreted turns (ports (port S.left S.fault_count source.old source.new)
        (port K.written K.fault_count out.old out.new) (port E.written E.fault_count err.old err.new)) result }
{
    // The rows rest on this law; the call does nothing.
    outcomes_have_one_answer();
    let answer = serial_answer(alloc, turns, source);
    deliver(alloc, &answer, out, err)
}

/// The answer of `serial`: what is read, to its end or one byte past the limit of a text, is run.
fn serial_answer<S: Source>(alloc: Global, turns: u64, source: &mut S) -> Answer
    ensures { SerialMay turns (port S.left S.fault_count source.old source.new) result }
{
    match read_whole(alloc, source, TEXT_LIMIT) {
        Ok(text) => text_answer(alloc, turns, &text),
        Err(error) => answer_of_read(error),
    }
}

/// What `serial` says of a text: the outcome of its program within so many turns, or its refusal.
fn text_answer(alloc: Global, turns: u64, text: &[u8]) -> Answer
    ensures { TextMay (SerialHas turns) text.now result }
{
    match program_of(alloc, text) {
        Ok(admitted) => program_answer(alloc, turns, admitted.program()),
        Err(JudgeError::Refused(refusal)) => Answer::SourceRefused(refusal),
        Err(JudgeError::NoMemory) => Answer::NoMemory,
    }
}

/// The outcome of a program within so many turns, as an answer.
fn program_answer(alloc: Global, turns: u64, program: &Program) -> Answer
    ensures { TreeMay turns (tree_of program.now) result }
{
    match serial(alloc, program, turns) {
        Ok(Outcome::Ended(arrays)) => Answer::Ended(arrays),
        Ok(Outcome::Trapped(trap, line)) => Answer::Trapped(trap, line),
        Ok(Outcome::NotWithin) => Answer::NotWithin(turns),
        Err(NoMemory) => Answer::NoMemory,
    }
}
