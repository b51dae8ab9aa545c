//! The command `show`.
ghost use Rattle.std.specs.Prelude.{◌≡◌};
ghost use Rattle.ppm_ports.specs.Ports.{port};
ghost use Rattle.ppm_ports.specs.Outside.{ports};
ghost use Rattle.ppm_answers.specs.Reading.{TextMay};
ghost use Rattle.ppm_show.specs.Names.{scene_of};
ghost use Rattle.ppm_commands.specs.Show.{IsSaid, SceneMay, ShowHas, ShowMay};
ghost use Rattle.ppm_commands.specs.Show.{error_answer as answer_of};

use crate::laws::saved_texts_have_one_answer;
use ppm_answers::{Answer, SavedRefusal, Status, answer_of_read, deliver};
use ppm_ports::{Sink, Source, read_whole};
use ppm_saved::Saved;
use ppm_saved_reader::{SAVED_LIMIT, SavedError, read_saved};
use ppm_show::show;
use ppm_words::{Items, NoMemory};
use std::alloc::Global;

/// Tells the state of the saved text that is read: its lines are written on `out`, the fault of a
/// text that is that of none on `err`.
pub fn show_command<S: Source, K: Sink, E: Sink>(
    alloc: Global,
    source: &mut S,
    out: &mut K,
    err: &mut E,
) -> Status
    // An answer that the command's causes allow is delivered, and its rows hold.
    ensures { IsSaid (ports (port S.left S.fault_count source.old source.new)
        (port K.written K.fault_count out.old out.new) (port E.written E.fault_count err.old err.new)) result }
{
    // The rows rest on this law; the call does nothing.
    saved_texts_have_one_answer();
    let answer = show_answer(alloc, source);
    deliver(alloc, &answer, out, err)
}

/// The answer of `show`: what is read, to its end or one byte past the limit of a saved text, is
/// judged.
fn show_answer<S: Source>(alloc: Global, source: &mut S) -> Answer
    ensures { ShowMay (port S.left S.fault_count source.old source.new) result }
{
    match read_whole(alloc, source, SAVED_LIMIT) {
        Ok(text) => text_answer(alloc, &text),
        Err(error) => answer_of_read(error),
    }
}

/// What `show` says of a text: its fault, or the lines of its state.
fn text_answer(alloc: Global, text: &[u8]) -> Answer
    ensures { TextMay ShowHas text.now result }
{
    match read_saved(alloc, text) {
        Ok(saved) => state_answer(alloc, &saved),
        Err(error) => error_answer(error),
    }
}

/// What `show` says of a state.
fn state_answer(alloc: Global, saved: &Saved) -> Answer
    ensures { SceneMay (scene_of saved.now.shape saved.now.names saved.now.lengths saved.now.code saved.now.words) result }
{
    match show(alloc, saved) {
        Ok(text) => Answer::Shown(Items::from_vec(text)),
        Err(NoMemory) => Answer::NoMemory,
    }
}

/// What `show` says of a text that is that of no state.
fn error_answer(error: SavedError) -> Answer
    ensures { result ≡ answer_of error }
{
    match error {
        SavedError::NoMemory => Answer::NoMemory,
        SavedError::NoSuchForm(_)
        | SavedError::OutOfRange(_)
        | SavedError::BadListing(_)
        | SavedError::BadCode(_)
        | SavedError::WrongCount(_) => Answer::SavedRefused(SavedRefusal {
            number: error.number(),
            line: error.line(),
        }),
    }
}
