//! The texts of answers.
ghost use Rattle.std.specs.Prelude.{◌≡◌, ◌++◌, IfOk, IsOk};
ghost use Rattle.std.specs.Cow.{cow_slice_items};
ghost use Rattle.ppm_answers.specs.Texts.{IsFixed, out_text, err_text, refusal_text, fault_text};
ghost use Rattle.ppm_answers.specs.Texts.{pass_name as name_of_pass, place_name as name_of_place};
ghost use Rattle.ppm_answers.specs.Texts.{not_within_text, turns_text, plan_text};

use crate::answer::Answer;
use crate::case::{input_text_of, untidy_text_of};
use crate::conflict::{conflict_at_text_of, conflict_text_of, listing_text_of};
use crate::counts::{not_within_capsules_text_of, sound_text_of, with_counts};
use crate::ends::{
    arrays_text_of, broken_text_of, explained_trap_of, room_text_of, trap_text_of,
    unfinished_text_of,
};
use crate::gap::gap_text_of;
use crate::race::race_text_of;
use crate::ran::{ran_err_of, ran_out_of};
use crate::refusal::{Pass, Refusal};
use crate::refused::explained_text_of;
use crate::replayed::{counted_err_of, counted_out_of};
use crate::saved::saved_line_of;
use crate::strands::{all_stood_text_of, fell_text_of, stood_err_of, stood_out_of};
use crate::sums::sums_text_of;
use crate::sweep::{difference_text_of, sweep_text_of};
use crate::tally::with_tally;
use std::alloc::{AllocError, Global};
use std::borrow::CowSlice;

/// What is written on out where `check` accepts a code.
const ACCEPTED: &[u8] = b"ok\n";
/// What is written on err where the words give no command.
const WORDS_REFUSED: &[u8] = b"words refused\n";
/// What is written on err where the source of bytes failed.
const READ_FAULT: &[u8] = b"read fault\n";
/// What is written on err where out failed.
pub const WRITE_FAULT: &[u8] = b"write fault\n";
/// What is written on err where memory was refused.
pub const OUT_OF_MEMORY: &[u8] = b"out of memory\n";

/// A text that is the same each time, or one that is made.
pub type Text = CowSlice<'static, u8>;

/// The texts of an answer, out's and err's. Fixed texts take no memory.
pub fn texts_of(alloc: Global, answer: &Answer) -> Result<(Text, Text), AllocError>
    ensures out { IfOk result (λ texts. cow_slice_items texts.0 ≡ out_text answer.now) }
    ensures err { IfOk result (λ texts. cow_slice_items texts.1 ≡ err_text answer.now) }
    ensures fixed { IsFixed answer.now → IsOk result }
{
    let none: &'static [u8] = b"";
    match answer {
        Answer::Ended(arrays) => Ok((
            CowSlice::Owned(arrays_text_of(alloc, arrays.as_slice())?),
            CowSlice::Borrowed(none),
        )),
        Answer::Trapped(trap, line) => Ok((
            CowSlice::Owned(trap_text_of(alloc, *trap, *line)?),
            CowSlice::Borrowed(none),
        )),
        Answer::TrapExplained(trap, line, notes) => Ok((
            CowSlice::Owned(explained_trap_of(alloc, *trap, *line, notes.as_slice())?),
            CowSlice::Borrowed(none),
        )),
        Answer::EndedWith(arrays, tally) => {
            let text = arrays_text_of(alloc, arrays.as_slice())?;
            Ok((
                CowSlice::Owned(with_tally(alloc, text, *tally)?),
                CowSlice::Borrowed(none),
            ))
        }
        Answer::TrappedWith(trap, line, tally) => {
            let text = trap_text_of(alloc, *trap, *line)?;
            Ok((
                CowSlice::Owned(with_tally(alloc, text, *tally)?),
                CowSlice::Borrowed(none),
            ))
        }
        Answer::ReplayedWith(came, counts) => Ok((
            CowSlice::Owned(counted_out_of(alloc, came, *counts)?),
            CowSlice::Owned(counted_err_of(alloc, came, *counts)?),
        )),
        Answer::RanWith(ran, counts) => Ok((
            CowSlice::Owned(ran_out_of(alloc, ran, *counts)?),
            CowSlice::Owned(ran_err_of(alloc, ran, *counts)?),
        )),
        Answer::Counted(arrays, counts) => {
            let text = arrays_text_of(alloc, arrays.as_slice())?;
            Ok((
                CowSlice::Owned(with_counts(alloc, text, *counts)?),
                CowSlice::Borrowed(none),
            ))
        }
        Answer::TrappedAfter(trap, line, counts) => {
            let text = trap_text_of(alloc, *trap, *line)?;
            Ok((
                CowSlice::Owned(with_counts(alloc, text, *counts)?),
                CowSlice::Borrowed(none),
            ))
        }
        Answer::Sound(counts) => Ok((
            CowSlice::Owned(sound_text_of(alloc, *counts)?),
            CowSlice::Borrowed(none),
        )),
        Answer::Summed(sums) => Ok((
            CowSlice::Owned(sums_text_of(alloc, *sums)?),
            CowSlice::Borrowed(none),
        )),
        Answer::Swept(sweep) => Ok((
            CowSlice::Owned(sweep_text_of(alloc, *sweep)?),
            CowSlice::Borrowed(none),
        )),
        Answer::Differs(difference) => Ok((
            CowSlice::Borrowed(none),
            CowSlice::Owned(difference_text_of(alloc, difference)?),
        )),
        Answer::Stood(lines, came) => Ok((
            CowSlice::Owned(stood_out_of(alloc, lines.as_slice(), came)?),
            CowSlice::Owned(stood_err_of(alloc, lines.as_slice(), came)?),
        )),
        Answer::Fell(lines, came, fall) => Ok((
            CowSlice::Borrowed(none),
            CowSlice::Owned(fell_text_of(alloc, lines.as_slice(), came, fall.as_slice())?),
        )),
        Answer::AllStood(runs) => Ok((
            CowSlice::Owned(all_stood_text_of(alloc, *runs)?),
            CowSlice::Borrowed(none),
        )),
        Answer::SourceRefused(refusal) => Ok((
            CowSlice::Borrowed(none),
            CowSlice::Owned(refusal_text_of(alloc, *refusal)?),
        )),
        Answer::Explained(refused, notes) => Ok((
            CowSlice::Borrowed(none),
            CowSlice::Owned(explained_text_of(alloc, *refused, notes.as_slice())?),
        )),
        Answer::NotWithin(turns) => Ok((
            CowSlice::Borrowed(none),
            CowSlice::Owned(not_within_text_of(alloc, *turns)?),
        )),
        Answer::StandExplained(turns, notes) => Ok((
            CowSlice::Borrowed(none),
            CowSlice::Owned(explained_stand_of(alloc, *turns, notes.as_slice())?),
        )),
        Answer::NotWithinCapsules(capsules) => Ok((
            CowSlice::Borrowed(none),
            CowSlice::Owned(not_within_capsules_text_of(alloc, *capsules)?),
        )),
        Answer::OutOfTurns(processor) => Ok((
            CowSlice::Borrowed(none),
            CowSlice::Owned(turns_text_of(alloc, *processor)?),
        )),
        Answer::OutOfRoom(place) => Ok((
            CowSlice::Borrowed(none),
            CowSlice::Owned(room_text_of(alloc, *place)?),
        )),
        Answer::Unfinished(acts) => Ok((
            CowSlice::Borrowed(none),
            CowSlice::Owned(unfinished_text_of(alloc, *acts)?),
        )),
        Answer::Broken(place) => Ok((
            CowSlice::Borrowed(none),
            CowSlice::Owned(broken_text_of(alloc, *place)?),
        )),
        Answer::PlanRefused(number) => Ok((
            CowSlice::Borrowed(none),
            CowSlice::Owned(plan_text_of(alloc, *number)?),
        )),
        Answer::Listed(listing) => Ok((
            CowSlice::Owned(listing.as_slice().to_vec(alloc)?),
            CowSlice::Borrowed(none),
        )),
        Answer::Saved(text) => Ok((
            CowSlice::Owned(text.as_slice().to_vec(alloc)?),
            CowSlice::Borrowed(none),
        )),
        Answer::Traced(text) => Ok((
            CowSlice::Owned(text.as_slice().to_vec(alloc)?),
            CowSlice::Borrowed(none),
        )),
        Answer::Shown(text) => Ok((
            CowSlice::Owned(text.as_slice().to_vec(alloc)?),
            CowSlice::Borrowed(none),
        )),
        Answer::Accepted => Ok((CowSlice::Borrowed(ACCEPTED), CowSlice::Borrowed(none))),
        Answer::Conflicting(conflict) => Ok((
            CowSlice::Borrowed(none),
            CowSlice::Owned(conflict_text_of(alloc, *conflict)?),
        )),
        Answer::Gapped(gap) => Ok((
            CowSlice::Borrowed(none),
            CowSlice::Owned(gap_text_of(alloc, *gap)?),
        )),
        Answer::ConflictingAt(conflict, read, write) => Ok((
            CowSlice::Borrowed(none),
            CowSlice::Owned(conflict_at_text_of(alloc, *conflict, *read, *write)?),
        )),
        Answer::Raced(race) => Ok((
            CowSlice::Borrowed(none),
            CowSlice::Owned(race_text_of(alloc, race)?),
        )),
        Answer::Untidy(untidy) => Ok((
            CowSlice::Borrowed(none),
            CowSlice::Owned(untidy_text_of(alloc, *untidy)?),
        )),
        Answer::InputRefused(refusal) => Ok((
            CowSlice::Borrowed(none),
            CowSlice::Owned(input_text_of(alloc, *refusal)?),
        )),
        Answer::ListingRefused(refusal) => Ok((
            CowSlice::Borrowed(none),
            CowSlice::Owned(listing_text_of(alloc, *refusal)?),
        )),
        Answer::SavedRefused(refusal) => Ok((
            CowSlice::Borrowed(none),
            CowSlice::Owned(saved_line_of(alloc, *refusal)?),
        )),
        Answer::WordsRefused => Ok((CowSlice::Borrowed(none), CowSlice::Borrowed(WORDS_REFUSED))),
        Answer::ReadFault => Ok((CowSlice::Borrowed(none), CowSlice::Borrowed(READ_FAULT))),
        Answer::NoMemory => Ok((CowSlice::Borrowed(none), CowSlice::Borrowed(OUT_OF_MEMORY))),
    }
}

/// The line of a processor that has no turns left.
pub(crate) fn turns_text_of(alloc: Global, processor: u32) -> Result<Vec<u8>, AllocError>
    ensures { IfOk result (λ text. text.items ≡ turns_text processor) }
{
    let text = format!(in alloc; "out of turns: processor {processor}\n")?;
    Ok(text.into_bytes())
}

/// The line of a plan or schedule that is refused.
pub(crate) fn plan_text_of(alloc: Global, number: u32) -> Result<Vec<u8>, AllocError>
    ensures { IfOk result (λ text. text.items ≡ plan_text number) }
{
    let text = format!(in alloc; "plan refused: {number}\n")?;
    Ok(text.into_bytes())
}

/// The line of a run that did not end within its turns.
fn not_within_text_of(alloc: Global, turns: u64) -> Result<Vec<u8>, AllocError>
    ensures { IfOk result (λ text. text.items ≡ not_within_text turns) }
{
    let text = format!(in alloc; "not within {turns} turns\n")?;
    Ok(text.into_bytes())
}

/// The line of a run that did not end within its turns, with the notes that tell where it stands.
fn explained_stand_of(alloc: Global, turns: u64, notes: &[u8]) -> Result<Vec<u8>, AllocError>
    ensures { IfOk result (λ text. text.items ≡ not_within_text turns ++ notes.now) }
{
    let mut text = not_within_text_of(alloc, turns)?;
    text.extend_from_slice(notes)?;
    Ok(text)
}

/// The line of a refusal.
pub(crate) fn refusal_text_of(alloc: Global, refusal: Refusal) -> Result<Vec<u8>, AllocError>
    ensures { IfOk result (λ text. text.items ≡ refusal_text refusal) }
{
    let pass = pass_name(refusal.pass);
    let at = place_name(refusal.pass);
    fault_text_of(alloc, pass, refusal.number, at, refusal.place)
}

/// The line of a fault: the pass and the number, and where it is.
fn fault_text_of(
    alloc: Global,
    pass: &str,
    number: u32,
    at: &str,
    place: u32,
) -> Result<Vec<u8>, AllocError>
    ensures { IfOk result (λ text. text.items ≡ fault_text pass.now number at.now place) }
{
    let line = format!(in alloc; "source refused: {pass} {number} {at} {place}\n")?;
    Ok(line.into_bytes())
}

/// The name of a pass.
fn pass_name(pass: Pass) -> &'static str
    ensures { result.now ≡ name_of_pass pass }
{
    match pass {
        Pass::Text => "text",
        Pass::Syntax => "syntax",
        Pass::Region => "region",
        Pass::Cut => "cut",
        Pass::Ram => "ram",
    }
}

/// What a pass says where its faults are.
fn place_name(pass: Pass) -> &'static str
    ensures { result.now ≡ name_of_place pass }
{
    match pass {
        Pass::Region | Pass::Ram => "line",
        Pass::Text | Pass::Syntax | Pass::Cut => "at",
    }
}
