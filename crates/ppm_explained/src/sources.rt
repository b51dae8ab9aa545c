//! Sources, judged and explained.
ghost use Rattle.ppm_answers.specs.Reading.{TextMay};
ghost use Rattle.ppm_program.specs.Refusals.{IsRefusal};
ghost use Rattle.ppm_cli.specs.declared.explain.ExplainedText.TheVariants as texts;
ghost use Rattle.ppm_explained.specs.Explaining.{ExplainHas};

use ppm_answers::{Answer, Refusal, Refused};
use ppm_explain::source_notes;
use ppm_program::{JudgeError, program_of};
use ppm_words::{Items, NoMemory};
use std::alloc::Global;

/// What is said of a source: that it has a program, or why it has none.
pub(crate) fn source_answer(alloc: Global, text: &[u8]) -> Answer
    ensures { TextMay (ExplainHas texts.Source) text.now result }
{
    match program_of(alloc, text) {
        Ok(_) => Answer::Accepted,
        Err(JudgeError::Refused(refusal)) => refused_answer(alloc, text, refusal),
        Err(JudgeError::NoMemory) => Answer::NoMemory,
    }
}

/// What is said of a source that is refused for this reason.
fn refused_answer(alloc: Global, text: &[u8], refusal: Refusal) -> Answer
    requires refused { IsRefusal text.now refusal }
    ensures { TextMay (ExplainHas texts.Source) text.now result }
{
    match source_notes(alloc, text, refusal) {
        Ok(notes) => Answer::Explained(Refused::Source(refusal), Items::from_vec(notes)),
        Err(NoMemory) => Answer::NoMemory,
    }
}
