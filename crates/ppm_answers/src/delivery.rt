//! An answer on its way out.
ghost use Rattle.std.specs.Prelude.{◌≡◌, ◌⊎◌};
ghost use Rattle.ppm_ports.specs.Ports.{port};
ghost use Rattle.ppm_answers.specs.Delivery.{Delivers};
ghost use Rattle.ppm_answers.specs.Statuses.{status_of};
ghost use Rattle.ppm_answers.specs.Texts.{IsFixed, out_text, err_text};
ghost use Rattle.ppm_answers.specs.declared.answer.Answer.TheVariants as answers;

use crate::answer::Answer;
use crate::ran::ran_status;
use crate::refused::refused_status;
use crate::replayed::came_status;
use crate::status::Status;
use crate::texts::{OUT_OF_MEMORY, WRITE_FAULT, texts_of};
use ppm_ports::{Failed, Sink, write_whole};
use std::alloc::Global;

/// Writes the texts of an answer, or those of want of memory where there is none for its texts; an
/// answer with fixed texts takes none. Each text is made whole before a byte is written.
pub fn deliver<K: Sink, E: Sink>(alloc: Global, answer: &Answer, out: &mut K, err: &mut E) -> Status
    ensures { let to_out = port K.written K.fault_count out.old out.new in
        let to_err = port E.written E.fault_count err.old err.new in
        Delivers to_out to_err answer.now result
        ⊎ ((¬ IsFixed answer.now) × Delivers to_out to_err answers.NoMemory result) }
{
    match texts_of(alloc, answer) {
        Ok((text, message)) => write(text.as_slice(), message.as_slice(), answer, out, err),
        Err(_) => write(b"", OUT_OF_MEMORY, &Answer::NoMemory, out, err),
    }
}

/// Writes the texts of an answer: out's first, and err's where that went well.
fn write<K: Sink, E: Sink>(
    text: &[u8],
    message: &[u8],
    answer: &Answer,
    out: &mut K,
    err: &mut E,
) -> Status
    requires out { text.now ≡ out_text answer.now }
    requires err { message.now ≡ err_text answer.now }
    ensures { Delivers (port K.written K.fault_count out.old out.new)
        (port E.written E.fault_count err.old err.new) answer.now result }
{
    match write_whole(out, text) {
        Ok(()) => match write_whole(err, message) {
            Ok(()) => own_status(answer),
            Err(Failed) => Status::WriteFault,
        },
        Err(Failed) => match write_whole(err, WRITE_FAULT) {
            // Whether err takes it or not, out failed.
            Ok(()) | Err(Failed) => Status::WriteFault,
        },
    }
}

/// The status of an answer whose texts are written.
fn own_status(answer: &Answer) -> Status
    ensures { result ≡ status_of answer.now }
{
    match answer {
        Answer::Ended(_) | Answer::EndedWith(_, _) | Answer::Counted(_, _) => Status::Ended,
        Answer::Trapped(_, _) | Answer::TrappedWith(_, _, _) | Answer::TrappedAfter(_, _, _) =>
            Status::Trapped,
        Answer::TrapExplained(_, _, _) => Status::Trapped,
        Answer::ReplayedWith(came, _) => came_status(came),
        Answer::RanWith(ran, _) => ran_status(ran),
        Answer::Stood(_, came) => came_status(came),
        Answer::Fell(_, _, _) => Status::CodeRefused,
        Answer::AllStood(_) => Status::Ended,
        Answer::NotWithin(_) | Answer::NotWithinCapsules(_) => Status::NotWithin,
        Answer::StandExplained(_, _) => Status::NotWithin,
        Answer::OutOfTurns(_) | Answer::Unfinished(_) => Status::OutOfTurns,
        Answer::OutOfRoom(_) => Status::OutOfRoom,
        Answer::Broken(_) => Status::Broken,
        Answer::SourceRefused(_) => Status::SourceRefused,
        Answer::Explained(refused, _) => refused_status(*refused),
        Answer::Summed(_) | Answer::Listed(_) | Answer::Saved(_) => Status::Ended,
        Answer::Shown(_) => Status::Ended,
        Answer::Accepted | Answer::Sound(_) | Answer::Swept(_) | Answer::Traced(_) => Status::Ended,
        Answer::Differs(_) => Status::Differs,
        Answer::Conflicting(_) | Answer::ListingRefused(_) => Status::CodeRefused,
        Answer::ConflictingAt(_, _, _) | Answer::Untidy(_) => Status::CodeRefused,
        Answer::Gapped(_) => Status::CodeRefused,
        Answer::Raced(_) | Answer::InputRefused(_) => Status::CodeRefused,
        Answer::SavedRefused(_) => Status::SavedRefused,
        Answer::WordsRefused | Answer::PlanRefused(_) => Status::WordsRefused,
        Answer::ReadFault => Status::ReadFault,
        Answer::NoMemory => Status::NoMemory,
    }
}
