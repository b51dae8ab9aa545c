//! A race as an answer tells it.
ghost use Rattle.std.specs.Prelude.{◌≡◌, ◌<◌, ◌≤◌, IfOk, length};
ghost use Rattle.ppm_words.specs.Limits.{array_limit, word_limit};
ghost use Rattle.ppm_words.specs.Inputs.{IsInput, value_count};
ghost use Rattle.ppm_commands.specs.Races.{IsAt, TellsRace, opener_told as told_opener};
ghost use Rattle.ppm_commands.specs.Races.{touch_told as told_touch};
ghost use Rattle.ppm_commands.specs.Races.{touching_told as told_touching};
ghost use Rattle.ppm_commands.specs.Races.{visit_told as told_visit};

use ppm_answers::Touch;
use ppm_code::Code;
use ppm_loading::line_at;
use ppm_races::{Opener, Race, Touching, Visit};
use ppm_words::{NamedArray, NoMemory};
use std::alloc::Global;

/// The array in which the word with an address lies, and its index there. Both count from 0.
#[derive(Clone, Copy, Debug, PartialEq, Eq)]
pub(crate) struct Cell {
    pub array: usize,
    pub index: u64,
}

/// Where the word with an address lies, of arrays that lie one after the other.
fn cell_of(arrays: &[NamedArray], word: u64) -> Cell
    requires input { IsInput arrays.now }
    requires there { word < value_count arrays.now }
    ensures { IsAt arrays.now word result }
{
    let mut left = arrays;
    let mut array = 0;
    let mut index = word;
    while let [first, rest @ ..] = left {
        let length = first.values.as_slice().len() as u64;
        if index < length {
            return Cell { array, index };
        }
        index -= length;
        array += 1;
        left = rest;
    }
    unreachable!()
}

/// A touch as an answer tells it.
fn touch_told(writes: bool) -> Touch
    ensures { result ≡ told_touch writes }
{
    if writes { Touch::Write } else { Touch::Read }
}

/// The capsule that opened a fork, as an answer tells it.
fn opener_told(opener: Opener) -> ppm_answers::Opener
    ensures { result ≡ told_opener opener }
{
    ppm_answers::Opener {
        run: opener.run,
        capsule: opener.capsule,
    }
}

/// A capsule that touched a word, as an answer tells it.
fn visit_told(visit: Visit) -> ppm_answers::Visit
    ensures { result ≡ told_visit visit }
{
    ppm_answers::Visit {
        run: visit.run,
        capsule: visit.capsule,
        touch: touch_told(visit.writes),
    }
}

/// An instruction that touches a word, as an answer tells it, of a case with so many arrays.
fn touching_told(code: &Code, arrays: usize, touching: Touching) -> ppm_answers::Touching
    requires { arrays ≤ array_limit }
    ensures { result ≡ told_touching arrays code.now touching }
{
    ppm_answers::Touching {
        run: touching.run,
        capsule: touching.capsule,
        at: touching.at,
        line: line_at(code, arrays, touching.capsule, touching.at),
        touch: touch_told(touching.writes),
    }
}

/// A race as an answer tells it. `Err` only where memory is refused.
pub(crate) fn race_told(
    alloc: Global,
    code: &Code,
    arrays: &[NamedArray],
    race: Race,
) -> Result<ppm_answers::Race, NoMemory>
    requires input { IsInput arrays.now }
    requires there { race.word < value_count arrays.now }
    ensures { IfOk result (TellsRace code.now arrays.now race) }
{
    let cell = cell_of(arrays, race.word);
    let name = arrays[cell.array].name.try_clone(alloc)?;
    Ok(ppm_answers::Race {
        array: name,
        index: cell.index,
        fork: opener_told(race.fork),
        left: visit_told(race.left),
        right: touching_told(code, arrays.len(), race.right),
    })
}
