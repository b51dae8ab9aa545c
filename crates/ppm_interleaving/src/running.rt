//! Strands under way.
ghost use Rattle.std.specs.Prelude.{◌≡◌, ◌<◌, length, IfOk};
ghost use Rattle.ppm_racy.specs.declared.code.RacyParts.{RacyParts};
ghost use Rattle.ppm_racy.specs.Capsules.{IsWithin};
ghost use Rattle.ppm_racy.specs.Code.{instrs_of};
ghost use Rattle.ppm_interleaving.specs.Changes.{change_of};
ghost use Rattle.ppm_interleaving.specs.Steps.{AsksFor, IsBegun, StoresAt, TurnsTo, found_at};

use crate::change::Change;
use crate::own::Own;
use ppm_code::{End, FrameWord, Location};
use ppm_racy::{RacyInstr, Touch, reach};
use ppm_words::NoMemory;
use std::alloc::Global;

/// A strand in a capsule: the instruction at which its register work begins next, its registers and
/// own words, and the changes that the capsule has asked for: those that are settled, which are
/// those up to the last one that changed a word, and those asked for since.
#[derive(Debug, Drop)]
pub struct Running {
    pub capsule: u32,
    pub at: usize,
    pub registers: [u64; 64],
    pub own: Own,
    pub settled: Vec<Change>,
    pub since: Vec<Change>,
}

/// What a turn of a strand under way comes to.
#[derive(Debug, Drop)]
pub enum Touched {
    /// It goes on, unseen by others.
    Goes(Running),
    /// It has changed a word.
    Changed {
        running: Running,
        word: u64,
        was: u64,
        is: u64,
    },
    /// Its capsule ends.
    Ends(Own, End),
}

/// The word at a location, with these own words and array words.
fn found(own: &Own, words: &[u64], location: Location) -> u64
    requires { IsWithin (length words.now) location }
    ensures { result ≡ found_at own.now words.now location }
{
    match location {
        Location::Frame(word) => own.frame_word(word),
        Location::New(offset) => own.block_word(offset),
        Location::Array(index) => words[index as usize],
    }
}

impl Running {
    /// A strand at the beginning of a capsule, with these own words.
    pub(crate) fn new(alloc: Global, capsule: u32, own: Own) -> Running
        ensures { IsBegun capsule own result }
    {
        Running {
            capsule,
            at: 0,
            registers: [0; 64],
            own,
            settled: Vec::new(alloc),
            since: Vec::new(alloc),
        }
    }

    /// The strand after a soft fault: at the beginning of its capsule, with its own words as they
    /// are.
    pub(crate) fn failed(self, alloc: Global) -> Running
        ensures { IsBegun self.capsule self.own result }
    {
        Running::new(alloc, self.capsule, self.own)
    }

    /// Asks for a change, and makes it.
    fn change(mut self, change: Change, words: &mut Vec<u64>) -> Result<Touched, NoMemory>
        requires { (change_of change).at < length words.old.items }
        ensures { IfOk result (λ touched. AsksFor self change words.old.items touched words.new.items) }
    {
        let word = change.word();
        let was = words[word as usize];
        let is = change.made_of(was);
        self.since.push(change)?;
        if is == was {
            return Ok(Touched::Goes(self));
        }
        words[word as usize] = is;
        self.settled.extend_from_slice(&self.since)?;
        self.since.clear();
        Ok(Touched::Changed {
            running: self,
            word,
            was,
            is,
        })
    }

    /// Stores a word at a location.
    fn store(
        mut self,
        location: Location,
        word: u64,
        words: &mut Vec<u64>,
    ) -> Result<Touched, NoMemory>
        requires { IsWithin (length words.old.items) location }
        ensures { IfOk result (λ touched. StoresAt self location word words.old.items touched words.new.items) }
    {
        match location {
            Location::Frame(frame_word) => {
                self.own.put_frame(frame_word, word)?;
                Ok(Touched::Goes(self))
            }
            Location::New(offset) => {
                self.own.put_block(offset, word)?;
                Ok(Touched::Goes(self))
            }
            Location::Array(index) => self.change(
                Change::Puts {
                    word: index,
                    value: word,
                },
                words,
            ),
        }
    }

    /// Makes a turn in a capsule of these instructions: register work up to the next touch of a
    /// word, and this touch, or up to the end.
    pub(crate) fn turn(
        mut self,
        instrs: &[RacyInstr],
        words: &mut Vec<u64>,
    ) -> Result<Touched, NoMemory>
        ensures { IfOk result (λ touched. (code : RacyParts)
            → instrs_of code self.capsule ≡ instrs.now
            → TurnsTo code (length words.old.items) self words.old.items touched words.new.items) }
    {
        let stop = reach(instrs, words.len() as u64, self.at, &mut self.registers);
        self.at = stop.next;
        match stop.touch {
            Touch::Loads(location, to) => {
                self.registers[usize::from(to.index)] = found(&self.own, words, location);
                Ok(Touched::Goes(self))
            }
            Touch::Stores(location, word) => self.store(location, word, words),
            Touch::Exchanges { word, old, new } => {
                self.change(Change::Exchanges { word, old, new }, words)
            }
            Touch::Ends(end) => Ok(Touched::Ends(self.own, end)),
        }
    }
}
