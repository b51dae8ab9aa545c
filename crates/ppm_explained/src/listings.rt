//! Listings, judged and explained.
ghost use Rattle.std.specs.Prelude.{IfOk};
ghost use Rattle.ppm_answers.specs.Reading.{TextMay};
ghost use Rattle.ppm_answers.specs.declared.answer.Answer.TheVariants as answers;
ghost use Rattle.ppm_cli.specs.declared.explain.ExplainedText.TheVariants as texts;
ghost use Rattle.ppm_commands.specs.Check.{CheckHas, conflict_told as told_conflict};
ghost use Rattle.ppm_listing_reader.specs.Correct.{IsListing, IsRefusal};
ghost use Rattle.ppm_war.specs.Conflicts.{IsFirstConflictOf};
ghost use Rattle.ppm_explained.specs.Explaining.{ExplainHas};
ghost use Rattle.ppm_explained.specs.Texts.{AreConflictNotes};

use ppm_answers::{Answer, ListingRefusal, Refused};
use ppm_code::Code;
use ppm_commands::conflict_told;
use ppm_listing_reader::{ListingError, read_listing};
use ppm_loading::line_at;
use ppm_notes::{conflict_notes, listing_notes};
use ppm_war::{Conflict, check};
use ppm_words::{Items, NoMemory};
use std::alloc::Global;

/// What is said of a listing: that its code has no conflict, or its first fault or conflict.
pub(crate) fn listing_answer(alloc: Global, text: &[u8]) -> Answer
    ensures { TextMay (ExplainHas texts.Listing) text.now result }
{
    match read_listing(alloc, text) {
        Ok(code) => {
            // What the type of `code` keeps is known once its parts were seen.
            let _ = code.parts();
            code_answer(alloc, text, &code)
        }
        Err(error) => error_answer(alloc, text, error),
    }
}

/// What is said of a text that is the listing of this code.
fn code_answer(alloc: Global, text: &[u8], code: &Code) -> Answer
    requires listed { IsListing text.now code.now }
    ensures { TextMay (ExplainHas texts.Listing) text.now result }
{
    match check(code) {
        Ok(_) => Answer::Accepted,
        Err(conflict) => conflict_answer(alloc, text, code, conflict),
    }
}

/// What is said of the listing of a code with this first conflict.
fn conflict_answer(alloc: Global, text: &[u8], code: &Code, conflict: Conflict) -> Answer
    requires listed { IsListing text.now code.now }
    requires first { IsFirstConflictOf code.now conflict }
    ensures { TextMay (ExplainHas texts.Listing) text.now result }
{
    match notes_of_conflict(alloc, text, code, conflict) {
        Ok(notes) => Answer::Explained(
            Refused::Conflict(conflict_told(conflict)),
            Items::from_vec(notes),
        ),
        Err(NoMemory) => Answer::NoMemory,
    }
}

/// The notes of a conflict: the lines of its two instructions.
fn notes_of_conflict(
    alloc: Global,
    text: &[u8],
    code: &Code,
    conflict: Conflict,
) -> Result<Vec<u8>, NoMemory>
    requires listed { IsListing text.now code.now }
    ensures { IfOk result (λ notes. AreConflictNotes text.now (told_conflict conflict) notes.items) }
{
    let read = line_at(code, 0, conflict.capsule, conflict.read_at);
    let write = line_at(code, 0, conflict.capsule, conflict.write_at);
    conflict_notes(alloc, text, read, write)
}

/// What is said of a text that is no listing, for this fault.
fn error_answer(alloc: Global, text: &[u8], error: ListingError) -> Answer
    requires refused { IsRefusal text.now error }
    ensures { TextMay (ExplainHas texts.Listing) text.now result }
{
    match error {
        ListingError::NoMemory => Answer::NoMemory,
        ListingError::NoSuchForm(_)
        | ListingError::OutOfRange(_)
        | ListingError::NotForward(_)
        | ListingError::NoEnd(_)
        | ListingError::WrongRoom(_)
        | ListingError::NotThere(_) => fault_answer(
            alloc,
            text,
            ListingRefusal {
                number: error.number(),
                line: error.line(),
            },
        ),
    }
}

/// What is said of a text that `check` refuses for this fault.
fn fault_answer(alloc: Global, text: &[u8], refusal: ListingRefusal) -> Answer
    requires refused { CheckHas text.now (answers.ListingRefused refusal) }
    ensures { TextMay (ExplainHas texts.Listing) text.now result }
{
    match listing_notes(alloc, text, refusal) {
        Ok(notes) => Answer::Explained(Refused::Listing(refusal), Items::from_vec(notes)),
        Err(NoMemory) => Answer::NoMemory,
    }
}
