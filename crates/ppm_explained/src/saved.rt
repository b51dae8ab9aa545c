//! Saved texts, judged and explained.
ghost use Rattle.ppm_answers.specs.Reading.{TextMay};
ghost use Rattle.ppm_answers.specs.declared.refused.Refused.TheVariants as refused;
ghost use Rattle.ppm_cli.specs.declared.explain.ExplainedText.TheVariants as texts;
ghost use Rattle.ppm_saved_reader.specs.Correct.{IsRefusal};
ghost use Rattle.ppm_explained.specs.Explaining.{ExplainHas};
ghost use Rattle.ppm_explained.specs.Texts.{IsRefused};

use ppm_answers::{Answer, Refused, SavedRefusal};
use ppm_notes::saved_notes;
use ppm_saved_reader::{SavedError, read_saved};
use ppm_words::{Items, NoMemory};
use std::alloc::Global;

/// What is said of a saved text: that it is that of a state, or its first fault.
pub(crate) fn saved_answer(alloc: Global, text: &[u8]) -> Answer
    ensures { TextMay (ExplainHas texts.Saved) text.now result }
{
    match read_saved(alloc, text) {
        Ok(_) => Answer::Accepted,
        Err(error) => error_answer(alloc, text, error),
    }
}

/// What is said of a text that is that of no state, for this fault.
fn error_answer(alloc: Global, text: &[u8], error: SavedError) -> Answer
    requires refused { IsRefusal text.now error }
    ensures { TextMay (ExplainHas texts.Saved) text.now result }
{
    match error {
        SavedError::NoMemory => Answer::NoMemory,
        SavedError::NoSuchForm(_)
        | SavedError::OutOfRange(_)
        | SavedError::BadListing(_)
        | SavedError::BadCode(_)
        | SavedError::WrongCount(_) => fault_answer(
            alloc,
            text,
            SavedRefusal {
                number: error.number(),
                line: error.line(),
            },
        ),
    }
}

/// What is said of a text that is refused for this fault.
fn fault_answer(alloc: Global, text: &[u8], refusal: SavedRefusal) -> Answer
    requires refused { IsRefused texts.Saved text.now (refused.Saved refusal) }
    ensures { TextMay (ExplainHas texts.Saved) text.now result }
{
    match saved_notes(alloc, text, refusal) {
        Ok(notes) => Answer::Explained(Refused::Saved(refusal), Items::from_vec(notes)),
        Err(NoMemory) => Answer::NoMemory,
    }
}
