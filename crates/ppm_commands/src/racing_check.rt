//! The command `check` of a code whose strands may race, and exchange array words.
ghost use Rattle.std.specs.Prelude.{◌≡◌, ◌<◌, length, nat_lt};
ghost use Rattle.ppm_ports.specs.Ports.{port};
ghost use Rattle.ppm_ports.specs.Outside.{ports};
ghost use Rattle.ppm_listing_reader.specs.Limits.{listing_limit};
ghost use Rattle.ppm_answers.specs.Reading.{TextMay};
ghost use Rattle.ppm_commands.specs.RacingCheck.{IsRacingChecked, RacingCheckMay, RacingHas};
ghost use Rattle.ppm_commands.specs.RacingCheck.{RacingVerdictMay};
ghost use Rattle.ppm_commands.specs.RacingCheck.{flaw_answer as answer_of_flaw};
ghost use Rattle.ppm_commands.specs.RacingCheck.{gap_told as told_gap};

use crate::check::{class_told, conflict_told, error_answer};
use crate::laws::racing_listings_have_one_answer;
use ppm_answers::{Answer, Hung, LeftOut, OtherBlock, Status, Unbuilt, answer_of_read, deliver};
use ppm_gaps::{CapsuleGap, Flaw, Gap};
use ppm_listing_reader::{LISTING_LIMIT, faults_tell_listings, read_listing};
use ppm_ports::{Sink, Source, read_whole};
use ppm_racy::RacyCode;
use ppm_racy_gaps::first_flaw;
use ppm_racy_listing::read_racy_listing;
use std::alloc::Global;

/// Checks the listing that is read, of a code whose strands may race and exchange array words: `ok`
/// is written on `out`, its first conflict or gap, or its first fault, on `err`.
pub fn racing_check_command<S: Source, K: Sink, E: Sink>(
    alloc: Global,
    source: &mut S,
    out: &mut K,
    err: &mut E,
) -> Status
    // An answer that the command's causes allow is delivered, and its rows hold.
    ensures { IsRacingChecked (ports (port S.left S.fault_count source.old source.new)
        (port K.written K.fault_count out.old out.new) (port E.written E.fault_count err.old err.new)) result }
{
    // The rows rest on this law; the call does nothing.
    racing_listings_have_one_answer();
    let answer = check_answer(alloc, source);
    deliver(alloc, &answer, out, err)
}

/// The answer: what is read, to its end or one byte past the limit of a listing, is judged.
fn check_answer<S: Source>(alloc: Global, source: &mut S) -> Answer
    ensures { RacingCheckMay (port S.left S.fault_count source.old source.new) result }
{
    match read_whole(alloc, source, LISTING_LIMIT) {
        Ok(text) => text_answer(alloc, &text),
        Err(error) => answer_of_read(error),
    }
}

/// Whether so many bytes are more than a listing may have.
fn is_too_long(bytes: usize) -> bool
    ensures { result ≡ nat_lt listing_limit bytes }
{
    bytes > LISTING_LIMIT
}

/// What is said of a text that is too long: the fault that it has as a listing.
fn long_answer(alloc: Global, text: &[u8]) -> Answer
    requires { listing_limit < length text.now }
    ensures { TextMay RacingHas text.now result }
{
    // No listing is so long; the call does nothing.
    faults_tell_listings();
    match read_listing(alloc, text) {
        Ok(code) => {
            // What the type of `code` keeps is known once its parts were seen.
            let _ = code.parts();
            unreachable!()
        }
        Err(error) => error_answer(error),
    }
}

/// What is said of a text: its fault, or the first flaw of its code, or that there is none.
fn text_answer(alloc: Global, text: &[u8]) -> Answer
    ensures { TextMay RacingHas text.now result }
{
    if is_too_long(text.len()) {
        return long_answer(alloc, text);
    }
    match read_racy_listing(alloc, text) {
        Ok(code) => {
            // What the type of `code` keeps is known once its parts were seen.
            let _ = code.parts();
            code_answer(alloc, &code)
        }
        Err(error) => error_answer(error),
    }
}

/// What is said of a code.
fn code_answer(alloc: Global, code: &RacyCode) -> Answer
    ensures { RacingVerdictMay code.now result }
{
    let Ok(found) = first_flaw(alloc, code) else {
        return Answer::NoMemory;
    };
    match found {
        Some(flaw) => flaw_told(flaw),
        None => Answer::Accepted,
    }
}

/// A flaw as an answer.
fn flaw_told(flaw: Flaw) -> Answer
    ensures { result ≡ answer_of_flaw flaw }
{
    match flaw {
        Flaw::Conflict(conflict) => Answer::Conflicting(conflict_told(conflict)),
        Flaw::Gap(gap) => Answer::Gapped(gap_told(gap)),
    }
}

/// A gap as an answer tells it.
fn gap_told(found: CapsuleGap) -> ppm_answers::Gap
    ensures { result ≡ told_gap found }
{
    let capsule = found.capsule;
    match found.gap {
        Gap::LeftOut(left_out) => ppm_answers::Gap::LeftOut(LeftOut {
            capsule,
            find: left_out.find,
            write: left_out.write,
            stop: left_out.stop,
            class: class_told(left_out.class),
        }),
        Gap::Unbuilt(unbuilt) => ppm_answers::Gap::Unbuilt(Unbuilt {
            capsule,
            write: unbuilt.write,
            stop: unbuilt.stop,
            word: unbuilt.word,
        }),
        Gap::OtherBlock(other) => ppm_answers::Gap::OtherBlock(OtherBlock {
            capsule,
            end: other.other,
            stop: other.stop,
        }),
        Gap::Hung(trap) => ppm_answers::Gap::Hung(Hung { capsule, trap }),
    }
}
