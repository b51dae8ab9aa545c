//! What a sweep answers: how many runs came to one end, or which run came to another one.
ghost use Rattle.std.specs.Prelude.{◌≡◌, ◌++◌, IfOk};
ghost use Rattle.ppm_answers.specs.Texts.{came_text, difference_text, left_end, sweep_text};
ghost use Rattle.ppm_answers.specs.Texts.{schedule_line, sweep_words, takeover_line};
ghost use Rattle.ppm_answers.specs.Texts.{takeover_name as name_of_takeover};

use crate::ends::{arrays_text_of, broken_text_of, room_text_of, trap_text_of, unfinished_text_of};
use ppm_cells::Takeover;
use ppm_words::{Items, NamedArray, Trap};
use std::alloc::{AllocError, Global};

/// What a sweep counts of which all runs came to one end.
#[derive(Clone, Copy, Debug, PartialEq, Eq)]
pub struct Sweep {
    /// How many runs were made.
    pub runs: u64,
    /// How many faults were put into the runs.
    pub met: u64,
    /// How many acts all runs made.
    pub acts: u64,
    /// How many schedules of the sweep were left out, since each of them would have more items than
    /// a schedule may have.
    pub left: u64,
}

/// What a run of a sweep came to.
#[derive(Debug, Drop)]
pub enum Came {
    /// It ended with these arrays, in the order in which they are declared.
    Ended(Items<NamedArray>),
    /// It ended by a trap in this line of the source; lines count from 1.
    Trapped(Trap, u32),
    /// It did not end within so many acts.
    Unfinished(u64),
    /// The pool of this place had no room for a block; places count from 0.
    OutOfRoom(u32),
    /// The words were broken at this place; places count from 0, and 64 is for a place that isn't
    /// known.
    Broken(u32),
}

/// A run that came to something else than the depth-first run.
#[derive(Debug, Drop)]
pub struct Difference {
    /// What is taken over in it.
    pub takeover: Takeover,
    /// The text of the schedule that it followed.
    pub schedule: Items<u8>,
    /// What it came to.
    pub came: Came,
}

/// The line of a sweep of which all runs came to one end.
pub(crate) fn sweep_text_of(alloc: Global, sweep: Sweep) -> Result<Vec<u8>, AllocError>
    ensures { IfOk result (λ text. text.items ≡ sweep_text sweep) }
{
    let mut text = sweep_words_of(alloc, sweep)?;
    let end = left_end_of(alloc, sweep.left)?;
    text.extend_from_slice(&end)?;
    Ok(text)
}

/// The words of that line but for what was left out.
fn sweep_words_of(alloc: Global, sweep: Sweep) -> Result<Vec<u8>, AllocError>
    ensures { IfOk result (λ text. text.items ≡ sweep_words sweep) }
{
    let Sweep {
        runs,
        met,
        acts,
        ..
    } = sweep;
    let words = format!(in alloc; "ok: {runs} runs, {met} met, {acts} acts")?;
    Ok(words.into_bytes())
}

/// The end of that line: how many schedules were left out, if any were.
fn left_end_of(alloc: Global, left: u64) -> Result<Vec<u8>, AllocError>
    ensures { IfOk result (λ text. text.items ≡ left_end left) }
{
    if left == 0 {
        return Vec::from_slice(alloc, b"\n");
    }
    let text = format!(in alloc; ", {left} left out\n")?;
    Ok(text.into_bytes())
}

/// The lines of a run that came to something else.
pub(crate) fn difference_text_of(
    alloc: Global,
    difference: &Difference,
) -> Result<Vec<u8>, AllocError>
    ensures { IfOk result (λ text. text.items ≡ difference_text difference.now) }
{
    let mut text = schedule_line_of(alloc, difference.schedule.as_slice())?;
    let takeover = takeover_line_of(alloc, difference.takeover)?;
    text.extend_from_slice(&takeover)?;
    let came = came_text_of(alloc, &difference.came)?;
    text.extend_from_slice(&came)?;
    Ok(text)
}

/// The line of the schedule of a run that came to something else.
fn schedule_line_of(alloc: Global, schedule: &[u8]) -> Result<Vec<u8>, AllocError>
    ensures { IfOk result (λ text. text.items ≡ schedule_line schedule.now) }
{
    let mut text = Vec::from_slice(alloc, b"differs: ")?;
    text.extend_from_slice(schedule)?;
    text.push(b'\n')?;
    Ok(text)
}

/// The line of what is taken over in a run.
fn takeover_line_of(alloc: Global, takeover: Takeover) -> Result<Vec<u8>, AllocError>
    ensures { IfOk result (λ text. text.items ≡ takeover_line takeover) }
{
    let name = takeover_name(takeover);
    let text = format!(in alloc; "takeover {name}\n")?;
    Ok(text.into_bytes())
}

/// The word for what is taken over.
fn takeover_name(takeover: Takeover) -> &'static str
    ensures { result.now ≡ name_of_takeover takeover }
{
    match takeover {
        Takeover::ByPlaces => "place",
        Takeover::ByEntries => "entry",
    }
}

/// What a replay says of what its run came to, without its tally.
pub(crate) fn came_text_of(alloc: Global, came: &Came) -> Result<Vec<u8>, AllocError>
    ensures { IfOk result (λ text. text.items ≡ came_text came.now) }
{
    match came {
        Came::Ended(arrays) => arrays_text_of(alloc, arrays.as_slice()),
        Came::Trapped(trap, line) => trap_text_of(alloc, *trap, *line),
        Came::Unfinished(acts) => unfinished_text_of(alloc, *acts),
        Came::OutOfRoom(place) => room_text_of(alloc, *place),
        Came::Broken(place) => broken_text_of(alloc, *place),
    }
}
