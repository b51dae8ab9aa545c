//! The array words that a capsule reads and writes.
ghost use Rattle.std.specs.Prelude.{◌≡◌, ◌++◌, OnOk};
ghost use Rattle.ppm_races.specs.Touches.{touches_at, touches_by};

use ppm_code::{Location, Step};
use ppm_words::NoMemory;

/// An array word that an instruction of a capsule reads or writes; words and instructions count
/// from 0.
#[derive(Clone, Copy, Debug, PartialEq, Eq)]
pub struct Touch {
    pub word: u64,
    pub writes: bool,
    pub at: usize,
}

/// Notes what an instruction does to a location, if that is an array word.
fn note_at(
    log: &mut Vec<Touch>,
    location: Location,
    writes: bool,
    at: usize,
) -> Result<(), NoMemory>
    ensures { OnOk result (log.new.items ≡ log.old.items ++ touches_at location writes at) }
{
    match location {
        Location::Array(word) => {
            log.push(Touch { word, writes, at })?;
            Ok(())
        }
        Location::Frame(_) => Ok(()),
        Location::New(_) => Ok(()),
    }
}

/// Notes what a step does to an array word.
pub(crate) fn note(log: &mut Vec<Touch>, step: Step, at: usize) -> Result<(), NoMemory>
    ensures { OnOk result (log.new.items ≡ log.old.items ++ touches_by step at) }
{
    match step {
        Step::Loads(location, _) => note_at(log, location, false, at),
        Step::Stores(location, _) => note_at(log, location, true, at),
        Step::Asks(_) => Ok(()),
    }
}
