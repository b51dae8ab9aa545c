//! The command `explain`.
ghost use Rattle.ppm_ports.specs.Ports.{port};
ghost use Rattle.ppm_ports.specs.Outside.{ports};
ghost use Rattle.ppm_answers.specs.Reading.{TextMay};
ghost use Rattle.ppm_explained.specs.Texts.{limit_of};
ghost use Rattle.ppm_explained.specs.Explaining.{ExplainHas, ExplainMay, IsToldWhy};
ghost use Rattle.std.specs.Prelude.{◌≡◌};

use crate::cases::case_answer;
use crate::laws::texts_have_one_answer;
use crate::listings::listing_answer;
use crate::saved::saved_answer;
use crate::sources::source_answer;
use ppm_answers::{Answer, Status, answer_of_read, deliver};
use ppm_case::CASE_LIMIT;
use ppm_cli::ExplainedText;
use ppm_listing_reader::LISTING_LIMIT;
use ppm_ports::{Sink, Source, read_whole};
use ppm_saved_reader::SAVED_LIMIT;
use ppm_text::TEXT_LIMIT;
use std::alloc::Global;

/// Judges the text that is read as the command does that reads it: `ok` is written on `out` where
/// it is accepted; else the line of its refusal is written on `err`, and after it where the fault
/// is, what stands there, what could, and what the refusal means.
pub fn explain_command<S: Source, K: Sink, E: Sink>(
    alloc: Global,
    kind: ExplainedText,
    source: &mut S,
    out: &mut K,
    err: &mut E,
) -> Status
    // An answer that the command's causes allow is delivered, and its rows hold.
    ensures { IsToldWhy kind (ports (port S.left S.fault_count source.old source.new)
        (port K.written K.fault_count out.old out.new) (port E.written E.fault_count err.old err.new)) result }
{
    // The rows rest on this law; the call does nothing.
    texts_have_one_answer();
    let answer = explain_answer(alloc, kind, source);
    deliver(alloc, &answer, out, err)
}

/// How many bytes are read of a text at most, but for one.
fn limit(kind: ExplainedText) -> usize
    ensures { result ≡ limit_of kind }
{
    match kind {
        ExplainedText::Source => TEXT_LIMIT,
        ExplainedText::Listing => LISTING_LIMIT,
        ExplainedText::Case => CASE_LIMIT,
        ExplainedText::Saved => SAVED_LIMIT,
    }
}

/// The answer of `explain`: what is read, to its end or one byte past the limit of such a text, is
/// judged.
fn explain_answer<S: Source>(alloc: Global, kind: ExplainedText, source: &mut S) -> Answer
    ensures { ExplainMay kind (port S.left S.fault_count source.old source.new) result }
{
    match read_whole(alloc, source, limit(kind)) {
        Ok(text) => text_answer(alloc, kind, &text),
        Err(error) => answer_of_read(error),
    }
}

/// What `explain` says of a text: that it is accepted, or why it is not.
fn text_answer(alloc: Global, kind: ExplainedText, text: &[u8]) -> Answer
    ensures { TextMay (ExplainHas kind) text.now result }
{
    match kind {
        ExplainedText::Source => source_answer(alloc, text),
        ExplainedText::Listing => listing_answer(alloc, text),
        ExplainedText::Case => case_answer(alloc, text),
        ExplainedText::Saved => saved_answer(alloc, text),
    }
}
