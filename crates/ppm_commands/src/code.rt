//! The command `code`.
ghost use Rattle.std.specs.Prelude.{◌≡◌, IfOk, OnOk};
ghost use Rattle.ppm_ports.specs.Ports.{port};
ghost use Rattle.ppm_ports.specs.Outside.{ports};
ghost use Rattle.ppm_tree.specs.Tree.{tree_of};
ghost use Rattle.ppm_cut_bounds.specs.Bounds.{IsWithinBounds};
ghost use Rattle.ppm_answers.specs.Reading.{TextMay};
ghost use Rattle.ppm_listing.specs.Listing.{listing_of as listing_in};
ghost use Rattle.ppm_listing.specs.Correct.{NumbersFit};
ghost use Rattle.ppm_cut_code.specs.Routines.{code_of};
ghost use Rattle.ppm_commands.specs.Code.{CodeReads, ProgramMay, CodeMay, IsListed};

use crate::laws::{codes_are_faithful, codes_have_one_answer};
use ppm_answers::{Answer, Status, answer_of_read, deliver};
use ppm_cut::cut;
use ppm_listing::write_listing;
use ppm_ports::{Sink, Source, read_whole};
use ppm_program::{JudgeError, program_of};
use ppm_regions::Admitted;
use ppm_text::TEXT_LIMIT;
use ppm_words::{Items, NoMemory};
use std::alloc::Global;

/// Compiles the text that is read: the listing of its code is written on `out`, its refusal on
/// `err`.
pub fn code_command<S: Source, K: Sink, E: Sink>(
    alloc: Global,
    source: &mut S,
    out: &mut K,
    err: &mut E,
) -> Status
    // An answer that the command's causes allow is delivered, and its rows hold.
    ensures { IsListed (ports (port S.left S.fault_count source.old source.new)
        (port K.written K.fault_count out.old out.new) (port E.written E.fault_count err.old err.new)) result }
{
    // The rows rest on these laws; the calls do nothing.
    codes_have_one_answer();
    codes_are_faithful();
    let answer = listing_answer(alloc, source);
    deliver(alloc, &answer, out, err)
}

/// The answer of `code`: what is read, to its end or one byte past the limit of a text, is
/// compiled.
fn listing_answer<S: Source>(alloc: Global, source: &mut S) -> Answer
    ensures { CodeMay (port S.left S.fault_count source.old source.new) result }
{
    match read_whole(alloc, source, TEXT_LIMIT) {
        Ok(text) => text_answer(alloc, &text),
        Err(error) => answer_of_read(error),
    }
}

/// What `code` says of a text: why it is refused, or the listing of its program's code.
fn text_answer(alloc: Global, text: &[u8]) -> Answer
    ensures { TextMay CodeReads text.now result }
{
    match program_of(alloc, text) {
        Ok(program) => program_answer(alloc, &program),
        Err(JudgeError::Refused(refusal)) => Answer::SourceRefused(refusal),
        Err(JudgeError::NoMemory) => Answer::NoMemory,
    }
}

/// What `code` says of a program: the listing of its code.
fn program_answer(alloc: Global, program: &Admitted) -> Answer
    requires bounded { IsWithinBounds (tree_of program.now) }
    ensures { ProgramMay (tree_of program.now) result }
{
    match listing_of(alloc, program) {
        Ok(listing) => Answer::Listed(Items::from_vec(listing)),
        Err(NoMemory) => Answer::NoMemory,
    }
}

/// The listing of a program's code.
fn listing_of(alloc: Global, program: &Admitted) -> Result<Vec<u8>, NoMemory>
    requires bounded { IsWithinBounds (tree_of program.now) }
    ensures value { IfOk result (λ text. text.items ≡ listing_in (code_of (tree_of program.now))) }
    ensures fits { OnOk result (NumbersFit (code_of (tree_of program.now))) }
{
    let code = cut(alloc, program.program())?;
    // What its type keeps is known once its parts were seen.
    let _ = code.parts();
    write_listing(alloc, &code)
}
