//! Answers of `sweep`, by the words of a call.
use crate::said::{number_at, wide_at};
use ppm_answers::{Answer, Came, Difference, Sweep};
use ppm_cells::Takeover;
use ppm_sheets::{Call, Fault};
use ppm_words::{Items, Name, NamedArray, Trap};
use std::alloc::Global;

/// The answer of this kind that the words after it give.
pub(crate) fn sweep_answer_of(alloc: Global, call: &Call, kind: &str) -> Result<Answer, Fault> {
    match kind {
        "swept" => Ok(Answer::Swept(Sweep {
            runs: wide_at(call, 2)?,
            met: wide_at(call, 3)?,
            acts: wide_at(call, 4)?,
            left: wide_at(call, 5)?,
        })),
        "differs" => Ok(Answer::Differs(difference_of(alloc, call)?)),
        _ => Err(Fault::Line("an answer is wanted")),
    }
}

/// `TAKEOVER END SCHEDULE`, and what belongs to the end.
fn difference_of(alloc: Global, call: &Call) -> Result<Difference, Fault> {
    Ok(Difference {
        takeover: takeover_at(call, 2)?,
        schedule: Items::from_vec(word_at(call, 4)?.as_bytes().to_vec(alloc)?),
        came: came_of(alloc, call)?,
    })
}

/// What the run of the call came to: the values of the array `word`, or a number.
fn came_of(alloc: Global, call: &Call) -> Result<Came, Fault> {
    match word_at(call, 3)? {
        "ended" => Ok(Came::Ended(arrays_of(alloc, call)?)),
        "trapped" => Ok(Came::Trapped(Trap::Split, number_at(call, 5)?)),
        "unfinished" => Ok(Came::Unfinished(wide_at(call, 5)?)),
        "room" => Ok(Came::OutOfRoom(number_at(call, 5)?)),
        "broken" => Ok(Came::Broken(number_at(call, 5)?)),
        _ => Err(Fault::Line("an end is wanted")),
    }
}

/// The array `word` with the two values of the call.
fn arrays_of(alloc: Global, call: &Call) -> Result<Items<NamedArray>, Fault> {
    let mut values = Vec::new(alloc);
    for at in 5..7 {
        let Ok(value) = word_at(call, at)?.parse::<i64>() else {
            return Err(Fault::Line("a value is wanted"));
        };
        values.push(value)?;
    }
    let mut arrays = Vec::new(alloc);
    arrays.push(NamedArray {
        name: Name::from_bytes(b"word".to_vec(alloc)?),
        values: Items::from_vec(values),
    })?;
    Ok(Items::from_vec(arrays))
}

/// The takeover that a word of a call names.
fn takeover_at(call: &Call, at: usize) -> Result<Takeover, Fault> {
    match word_at(call, at)? {
        "place" => Ok(Takeover::ByPlaces),
        "entry" => Ok(Takeover::ByEntries),
        _ => Err(Fault::Line("a takeover is wanted")),
    }
}

/// A word of a call; words count from 0.
fn word_at(call: &Call, at: usize) -> Result<&str, Fault> {
    match call.words.get(at) {
        Some(word) => Ok(word.as_str()),
        None => Err(Fault::Line("a word is wanted")),
    }
}
