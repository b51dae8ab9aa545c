//! The command `check`.
ghost use Rattle.std.specs.Prelude.{◌≡◌};
ghost use Rattle.ppm_ports.specs.Ports.{port};
ghost use Rattle.ppm_ports.specs.Outside.{ports};
ghost use Rattle.ppm_answers.specs.Reading.{TextMay};
ghost use Rattle.ppm_commands.specs.Check.{class_told as told_class};
ghost use Rattle.ppm_commands.specs.Check.{conflict_told as told_conflict};
ghost use Rattle.ppm_commands.specs.Check.{error_answer as answer_of};
ghost use Rattle.ppm_commands.specs.Check.{CheckHas, VerdictOf, CheckMay, IsChecked};

use crate::laws::listings_have_one_answer;
use ppm_answers::{Answer, ListingRefusal, Status, answer_of_read, deliver};
use ppm_code::{Class, Code};
use ppm_listing_reader::{LISTING_LIMIT, ListingError, read_listing};
use ppm_ports::{Sink, Source, read_whole};
use ppm_war::{Conflict, check};
use std::alloc::Global;

/// Checks the listing that is read: `ok` is written on `out`, its first conflict or its first fault
/// on `err`.
pub fn check_command<S: Source, K: Sink, E: Sink>(
    alloc: Global,
    source: &mut S,
    out: &mut K,
    err: &mut E,
) -> Status
    // An answer that the command's causes allow is delivered, and its rows hold.
    ensures { IsChecked (ports (port S.left S.fault_count source.old source.new)
        (port K.written K.fault_count out.old out.new) (port E.written E.fault_count err.old err.new)) result }
{
    // The rows rest on this law; the call does nothing.
    listings_have_one_answer();
    let answer = check_answer(alloc, source);
    deliver(alloc, &answer, out, err)
}

/// The answer of `check`: what is read, to its end or one byte past the limit of a listing, is
/// judged.
fn check_answer<S: Source>(alloc: Global, source: &mut S) -> Answer
    ensures { CheckMay (port S.left S.fault_count source.old source.new) result }
{
    match read_whole(alloc, source, LISTING_LIMIT) {
        Ok(text) => text_answer(alloc, &text),
        Err(error) => answer_of_read(error),
    }
}

/// What `check` says of a text: its fault, or the first conflict of its code, or that there is
/// none.
fn text_answer(alloc: Global, text: &[u8]) -> Answer
    ensures { TextMay CheckHas text.now result }
{
    match read_listing(alloc, text) {
        Ok(code) => {
            // What the type of `code` keeps is known once its parts were seen.
            let _ = code.parts();
            code_answer(&code)
        }
        Err(error) => error_answer(error),
    }
}

/// What `check` says of a code.
fn code_answer(code: &Code) -> Answer
    ensures { VerdictOf code.now result }
{
    match check(code) {
        Ok(_) => Answer::Accepted,
        Err(conflict) => Answer::Conflicting(conflict_told(conflict)),
    }
}

/// What `check` says of a text that is no listing.
pub(crate) fn error_answer(error: ListingError) -> Answer
    ensures { result ≡ answer_of error }
{
    match error {
        ListingError::NoMemory => Answer::NoMemory,
        ListingError::NoSuchForm(_)
        | ListingError::OutOfRange(_)
        | ListingError::NotForward(_)
        | ListingError::NoEnd(_)
        | ListingError::WrongRoom(_)
        | ListingError::NotThere(_) => Answer::ListingRefused(ListingRefusal {
            number: error.number(),
            line: error.line(),
        }),
    }
}

/// A conflict as an answer tells it.
pub fn conflict_told(conflict: Conflict) -> ppm_answers::Conflict
    ensures { result ≡ told_conflict conflict }
{
    ppm_answers::Conflict {
        capsule: conflict.capsule,
        read_at: conflict.read_at,
        write_at: conflict.write_at,
        class: class_told(conflict.class),
    }
}

/// A class as an answer tells it.
pub(crate) fn class_told(class: Class) -> ppm_answers::Class
    ensures { result ≡ told_class class }
{
    match class {
        Class::Slot(slot) => ppm_answers::Class::Cur(slot),
        Class::New(word) => ppm_answers::Class::New(word),
        Class::Value => ppm_answers::Class::Value,
        Class::Room => ppm_answers::Class::Room,
        Class::Array => ppm_answers::Class::Array,
    }
}
