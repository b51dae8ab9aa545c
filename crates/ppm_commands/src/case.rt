//! The command `code` with arrays.
ghost use Rattle.std.specs.Prelude.{◌≡◌, IfOk, OnOk};
ghost use Rattle.ppm_ports.specs.Ports.{port};
ghost use Rattle.ppm_ports.specs.Outside.{ports};
ghost use Rattle.ppm_tree.specs.Tree.{tree_of};
ghost use Rattle.ppm_cut_bounds.specs.Bounds.{IsWithinBounds};
ghost use Rattle.ppm_answers.specs.Reading.{TextMay};
ghost use Rattle.ppm_listing.specs.Correct.{NumbersFit};
ghost use Rattle.ppm_cut_code.specs.Routines.{code_of};
ghost use Rattle.ppm_commands.specs.Case.{CaseReads, ProgramMay, CaseMay, IsWrittenAsCase, text_of};

use crate::laws::{case_texts_are_cases, case_texts_have_one_answer, codes_are_faithful};
use ppm_answers::{Answer, Status, answer_of_read, deliver};
use ppm_case::write_case;
use ppm_cut::cut;
use ppm_ports::{Sink, Source, read_whole};
use ppm_program::{JudgeError, program_of};
use ppm_regions::Admitted;
use ppm_text::TEXT_LIMIT;
use ppm_words::{Items, NoMemory};
use std::alloc::Global;

/// Compiles the text that is read: its arrays with the values that they start with, and the listing
/// of its code are written on `out`, its refusal on `err`.
pub fn case_command<S: Source, K: Sink, E: Sink>(
    alloc: Global,
    source: &mut S,
    out: &mut K,
    err: &mut E,
) -> Status
    // An answer that the command's causes allow is delivered, and its rows hold.
    ensures { IsWrittenAsCase (ports (port S.left S.fault_count source.old source.new)
        (port K.written K.fault_count out.old out.new) (port E.written E.fault_count err.old err.new)) result }
{
    // The rows rest on these laws; the calls do nothing.
    case_texts_have_one_answer();
    case_texts_are_cases();
    codes_are_faithful();
    let answer = case_answer(alloc, source);
    deliver(alloc, &answer, out, err)
}

/// The answer of `code` with arrays: what is read, to its end or one byte past the limit of a text,
/// is compiled.
fn case_answer<S: Source>(alloc: Global, source: &mut S) -> Answer
    ensures { CaseMay (port S.left S.fault_count source.old source.new) result }
{
    match read_whole(alloc, source, TEXT_LIMIT) {
        Ok(text) => text_answer(alloc, &text),
        Err(error) => answer_of_read(error),
    }
}

/// What is said of a text: why it is refused, or the text of its program's code with its arrays.
fn text_answer(alloc: Global, text: &[u8]) -> Answer
    ensures { TextMay CaseReads text.now result }
{
    match program_of(alloc, text) {
        Ok(program) => program_answer(alloc, &program),
        Err(JudgeError::Refused(refusal)) => Answer::SourceRefused(refusal),
        Err(JudgeError::NoMemory) => Answer::NoMemory,
    }
}

/// What is said of a program: the text of its code with its arrays.
fn program_answer(alloc: Global, program: &Admitted) -> Answer
    requires bounded { IsWithinBounds (tree_of program.now) }
    ensures { ProgramMay (tree_of program.now) result }
{
    match case_of(alloc, program) {
        Ok(text) => Answer::Listed(Items::from_vec(text)),
        Err(NoMemory) => Answer::NoMemory,
    }
}

/// The text of a program's code with its arrays.
fn case_of(alloc: Global, program: &Admitted) -> Result<Vec<u8>, NoMemory>
    requires bounded { IsWithinBounds (tree_of program.now) }
    ensures value { IfOk result (λ text. text.items ≡ text_of (tree_of program.now)) }
    ensures fits { OnOk result (NumbersFit (code_of (tree_of program.now))) }
{
    let code = cut(alloc, program.program())?;
    // What its type keeps is known once its parts were seen.
    let _ = code.parts();
    write_case(alloc, &code, program.input().arrays())
}
