//! Cases, judged and explained.
ghost use Rattle.ppm_answers.specs.Reading.{TextMay};
ghost use Rattle.ppm_answers.specs.declared.refused.Refused.TheVariants as refused;
ghost use Rattle.ppm_case.specs.Case.{IsCaseOf};
ghost use Rattle.ppm_case.specs.Faults.{HasFault};
ghost use Rattle.ppm_cli.specs.declared.explain.ExplainedText.TheVariants as texts;
ghost use Rattle.ppm_code.specs.Free.{IsFree};
ghost use Rattle.ppm_explained.specs.Explaining.{ExplainHas};
ghost use Rattle.ppm_explained.specs.Texts.{IsRefused};

use ppm_answers::{Answer, Conflict, InputRefusal, ListingRefusal, Refused, UntidyStore};
use ppm_case::{CaseError, CaseFault, read_case};
use ppm_code::Code;
use ppm_commands::conflict_told;
use ppm_loading::{array_count, line_at, store_told};
use ppm_notes::{case_notes, conflict_notes, input_notes, untidy_notes};
use ppm_war::{check, untidy};
use ppm_words::{Input, Items, NoMemory};
use std::alloc::Global;

/// What is said of a case: that its code may be run again and is tidy, or its first fault, conflict
/// or untidy store.
pub(crate) fn case_answer(alloc: Global, text: &[u8]) -> Answer
    ensures { TextMay (ExplainHas texts.Case) text.now result }
{
    match read_case(alloc, text) {
        Ok(case) => ready_answer(alloc, text, &case.code, &case.input),
        Err(CaseError::Refused(fault, line)) => fault_answer(alloc, text, fault, line),
        Err(CaseError::NoMemory) => Answer::NoMemory,
    }
}

/// What is said of a text that is of this case.
fn ready_answer(alloc: Global, text: &[u8], code: &Code, input: &Input) -> Answer
    requires of_case { IsCaseOf text.now code.now input.now }
    ensures { TextMay (ExplainHas texts.Case) text.now result }
{
    match check(code) {
        Ok(_) => tidy_answer(alloc, text, code, input),
        Err(conflict) => {
            let arrays = array_count(input);
            let read = line_at(code, arrays, conflict.capsule, conflict.read_at);
            let write = line_at(code, arrays, conflict.capsule, conflict.write_at);
            conflict_answer(alloc, text, conflict_told(conflict), read, write)
        }
    }
}

/// What is said of a text that is of this case, whose code has no conflict.
fn tidy_answer(alloc: Global, text: &[u8], code: &Code, input: &Input) -> Answer
    requires of_case { IsCaseOf text.now code.now input.now }
    requires free { IsFree code.now }
    ensures { TextMay (ExplainHas texts.Case) text.now result }
{
    match untidy(code) {
        Some(store) => untidy_answer(alloc, text, store_told(code, array_count(input), store)),
        None => Answer::Accepted,
    }
}

/// What is said of a case whose code has this first conflict, in these lines.
fn conflict_answer(alloc: Global, text: &[u8], conflict: Conflict, read: u64, write: u64) -> Answer
    requires refused { IsRefused texts.Case text.now (refused.ConflictAt conflict read write) }
    ensures { TextMay (ExplainHas texts.Case) text.now result }
{
    match conflict_notes(alloc, text, read, write) {
        Ok(notes) => Answer::Explained(
            Refused::ConflictAt(conflict, read, write),
            Items::from_vec(notes),
        ),
        Err(NoMemory) => Answer::NoMemory,
    }
}

/// What is said of a case whose code has this first store that is not tidy.
fn untidy_answer(alloc: Global, text: &[u8], store: UntidyStore) -> Answer
    requires refused { IsRefused texts.Case text.now (refused.Untidy store) }
    ensures { TextMay (ExplainHas texts.Case) text.now result }
{
    match untidy_notes(alloc, text, store) {
        Ok(notes) => Answer::Explained(Refused::Untidy(store), Items::from_vec(notes)),
        Err(NoMemory) => Answer::NoMemory,
    }
}

/// What is said of a text that is of no case, for this fault at a line.
fn fault_answer(alloc: Global, text: &[u8], fault: CaseFault, line: u32) -> Answer
    requires there { HasFault text.now fault line }
    ensures { TextMay (ExplainHas texts.Case) text.now result }
{
    match fault {
        CaseFault::OfInput(fault) => input_answer(
            alloc,
            text,
            InputRefusal {
                number: fault.number(),
                line,
            },
        ),
        CaseFault::OfListing(fault) => listing_answer(
            alloc,
            text,
            ListingRefusal {
                number: fault.number(),
                line,
            },
        ),
    }
}

/// What is said of a case that is refused for this fault of its arrays or of its root.
fn input_answer(alloc: Global, text: &[u8], refusal: InputRefusal) -> Answer
    requires refused { IsRefused texts.Case text.now (refused.Input refusal) }
    ensures { TextMay (ExplainHas texts.Case) text.now result }
{
    match input_notes(alloc, text, refusal) {
        Ok(notes) => Answer::Explained(Refused::Input(refusal), Items::from_vec(notes)),
        Err(NoMemory) => Answer::NoMemory,
    }
}

/// What is said of a case that is refused for this fault of its listing.
fn listing_answer(alloc: Global, text: &[u8], refusal: ListingRefusal) -> Answer
    requires refused { IsRefused texts.Case text.now (refused.Listing refusal) }
    ensures { TextMay (ExplainHas texts.Case) text.now result }
{
    match case_notes(alloc, text, refusal) {
        Ok(notes) => Answer::Explained(Refused::Listing(refusal), Items::from_vec(notes)),
        Err(NoMemory) => Answer::NoMemory,
    }
}
