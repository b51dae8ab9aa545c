//! `explain` of the trap of a source.
ghost use Rattle.std.specs.Prelude.{ℕ};
ghost use Rattle.ppm_ports.specs.Ports.{port};
ghost use Rattle.ppm_ports.specs.Outside.{ports};
ghost use Rattle.ppm_tree.specs.Tree.{tree_of};
ghost use Rattle.ppm_tree.specs.Program.{Serial};
ghost use Rattle.ppm_words.specs.declared.outcome.Outcome.TheVariants as outcome;
ghost use Rattle.ppm_program.specs.Programs.{HasProgram};
ghost use Rattle.ppm_program.specs.Refusals.{IsRefusal};
ghost use Rattle.ppm_answers.specs.Reading.{TextMay};
ghost use Rattle.ppm_explained.specs.Trapping.{IsTrapTold, TrapHas, TrapMay};

use crate::laws::traps_have_one_answer;
use ppm_answers::{Answer, Refusal, Refused, Status, answer_of_read, deliver};
use ppm_explain::source_notes;
use ppm_notes::{stand_notes, trap_notes};
use ppm_ports::{Sink, Source, read_whole};
use ppm_program::{JudgeError, program_of};
use ppm_serial::serial;
use ppm_standing::{stand, stand_where_later};
use ppm_text::TEXT_LIMIT;
use ppm_trapped::{trap as trap_of, trap_points_trap};
use ppm_tree::{Program, have_one_end, spend_their_turns};
use ppm_words::{Items, NoMemory, Outcome, Trap};
use std::alloc::Global;

/// Runs the text that is read within so many turns of the serial meaning: `ok` is written on `out`
/// where the run ends. Where it is a trap, the line of that is written on `out`, and after it the
/// line of the source, what the names stand for that are read there, the procedure, and what the
/// trap means. The refusal with its notes is written on `err`; or that the run takes more turns,
/// and after it where it stands: the line, the names, the procedure and the calls that are open.
pub fn explain_trap_command<S: Source, K: Sink, E: Sink>(
    alloc: Global,
    turns: u64,
    source: &mut S,
    out: &mut K,
    err: &mut E,
) -> Status
    // An answer that the command's causes allow is delivered, and its rows hold.
    ensures { IsTrapTold turns (ports (port S.left S.fault_count source.old source.new)
        (port K.written K.fault_count out.old out.new) (port E.written E.fault_count err.old err.new)) result }
{
    // The rows rest on this law; the call does nothing.
    traps_have_one_answer();
    let answer = read_answer(alloc, turns, source);
    deliver(alloc, &answer, out, err)
}

/// The answer: what is read, to its end or one byte past the limit of a text, is run.
fn read_answer<S: Source>(alloc: Global, turns: u64, source: &mut S) -> Answer
    ensures { TrapMay turns (port S.left S.fault_count source.old source.new) result }
{
    match read_whole(alloc, source, TEXT_LIMIT) {
        Ok(text) => text_answer(alloc, turns, &text),
        Err(error) => answer_of_read(error),
    }
}

/// What is said of a text: the outcome of its program within so many turns, or its refusal.
fn text_answer(alloc: Global, turns: u64, text: &[u8]) -> Answer
    ensures { TextMay (TrapHas turns) text.now result }
{
    match program_of(alloc, text) {
        Ok(admitted) => program_answer(alloc, turns, text, admitted.program()),
        Err(JudgeError::Refused(refusal)) => refused_answer(alloc, text, refusal),
        Err(JudgeError::NoMemory) => Answer::NoMemory,
    }
}

/// What is said of a source that is refused for this reason, whatever the turns are.
fn refused_answer(alloc: Global, text: &[u8], refusal: Refusal) -> Answer
    requires refused { IsRefusal text.now refusal }
    ensures { (turns : ℕ) → TextMay (TrapHas turns) text.now result }
{
    match source_notes(alloc, text, refusal) {
        Ok(notes) => Answer::Explained(Refused::Source(refusal), Items::from_vec(notes)),
        Err(NoMemory) => Answer::NoMemory,
    }
}

/// What is said of a text with this program. Where its run is a trap, or takes more turns, it is
/// walked once more.
fn program_answer(alloc: Global, turns: u64, text: &[u8], program: &Program) -> Answer
    requires has { HasProgram text.now (tree_of program.now) }
    ensures { TextMay (TrapHas turns) text.now result }
{
    match serial(alloc, program, turns) {
        Ok(Outcome::Ended(_)) => Answer::Accepted,
        Ok(Outcome::Trapped(trap, line)) => {
            walked_answer(alloc, turns, text, program, trap, line)
        }
        Ok(Outcome::NotWithin) => stood_answer(alloc, turns, text, program),
        Err(NoMemory) => Answer::NoMemory,
    }
}

/// What is said of a text with this program, whose run is this trap in this line: what the names
/// stand for where it traps.
fn walked_answer(
    alloc: Global,
    turns: u64,
    text: &[u8],
    program: &Program,
    trap: Trap,
    line: u32,
) -> Answer
    requires has { HasProgram text.now (tree_of program.now) }
    requires traps { Serial (tree_of program.now) turns (outcome.Trapped trap line) }
    ensures { TextMay (TrapHas turns) text.now result }
{
    // The walk comes to this trap, by these laws; the calls do nothing.
    have_one_end();
    trap_points_trap();
    match trap_of(alloc, program) {
        Ok(Some(told)) => match trap_notes(alloc, text, &told) {
            Ok(notes) => Answer::TrapExplained(trap, line, Items::from_vec(notes)),
            Err(NoMemory) => Answer::NoMemory,
        },
        Ok(None) => unreachable!(),
        Err(NoMemory) => Answer::NoMemory,
    }
}

/// What is said of a text with this program, whose run takes more turns: where it stands.
fn stood_answer(alloc: Global, turns: u64, text: &[u8], program: &Program) -> Answer
    requires has { HasProgram text.now (tree_of program.now) }
    requires later { Serial (tree_of program.now) turns outcome.NotWithin }
    ensures { TextMay (TrapHas turns) text.now result }
{
    // The run stands somewhere, by these laws; the calls do nothing.
    spend_their_turns();
    stand_where_later();
    match stand(alloc, program, turns) {
        Ok(Some(stood)) => match stand_notes(alloc, text, &stood) {
            Ok(notes) => Answer::StandExplained(turns, Items::from_vec(notes)),
            Err(NoMemory) => Answer::NoMemory,
        },
        Ok(None) => unreachable!(),
        Err(NoMemory) => Answer::NoMemory,
    }
}
