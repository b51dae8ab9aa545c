//! The words that capsules read and write: a stack of blocks, and the words of the arrays.
ghost use Rattle.std.specs.Prelude.{◌≡◌, ◌++◌, ◌<◌, ◌≤◌, OnOk, replicate, length};
ghost use Rattle.ppm_depth.specs.Store.{IsThere, IsStepThere, found, blocks_with, words_with};
ghost use Rattle.ppm_depth.specs.Store.{registers_after, blocks_after, words_after, asked_by};

use ppm_code::{FrameWord, Location, Step};
use ppm_words::NoMemory;

/// Where the capsule that is run finds its frame and its new block: their first words in the stack.
#[derive(Clone, Copy, Debug, PartialEq, Eq)]
pub struct Place {
    pub frame: usize,
    pub block: usize,
}

/// The blocks in use, one after the other, and the words of the arrays.
#[derive(Drop)]
pub struct Store {
    pub blocks: Vec<u64>,
    pub words: Vec<u64>,
}

impl Store {
    /// The word at a location.
    fn load(&self, place: Place, location: Location) -> u64
        requires { IsThere place location self.now.blocks.items self.now.words.items }
        ensures { result ≡ found place location self.now.blocks.items self.now.words.items }
    {
        match location {
            Location::Frame(FrameWord::Slot(slot)) => self.blocks[place.frame
                + (6 + slot as usize)],
            Location::Frame(FrameWord::Value) => self.blocks[place.frame + 4],
            Location::New(offset) => self.blocks[place.block + offset as usize],
            Location::Array(index) => self.words[index as usize],
        }
    }

    /// Puts a word to a location.
    fn store(&mut self, place: Place, location: Location, word: u64)
        requires { IsThere place location self.old.blocks.items self.old.words.items }
        ensures blocks { self.new.blocks.items
            ≡ blocks_with place location word self.old.blocks.items }
        ensures words { self.new.words.items ≡ words_with location word self.old.words.items }
    {
        match location {
            Location::Frame(FrameWord::Slot(slot)) => {
                self.blocks[place.frame + (6 + slot as usize)] = word;
            }
            Location::Frame(FrameWord::Value) => self.blocks[place.frame + 4] = word,
            Location::New(offset) => self.blocks[place.block + offset as usize] = word,
            Location::Array(index) => self.words[index as usize] = word,
        }
    }

    /// One step of a capsule; the words that it asks for.
    pub fn step(&mut self, place: Place, step: Step, registers: &mut [u64; 64]) -> u32
        requires { IsStepThere place step self.old.blocks.items self.old.words.items }
        ensures registers { registers.new
            ≡ registers_after place step self.old.blocks.items self.old.words.items registers.old }
        ensures blocks { self.new.blocks.items ≡ blocks_after place step self.old.blocks.items }
        ensures words { self.new.words.items ≡ words_after step self.old.words.items }
        ensures asked { result ≡ asked_by step }
    {
        match step {
            Step::Loads(location, to) => {
                let word = self.load(place, location);
                registers[usize::from(to.index)] = word;
                0
            }
            Step::Stores(location, word) => {
                self.store(place, location, word);
                0
            }
            Step::Asks(words) => words,
        }
    }

    /// A new block on the stack, with 0 in its words.
    pub fn open_block(&mut self, words: usize) -> Result<(), NoMemory>
        ensures blocks { OnOk result (self.new.blocks.items
            ≡ self.old.blocks.items ++ replicate words 0) }
        ensures words { OnOk result (self.new.words.items ≡ self.old.words.items) }
    {
        for _ in 0..words {
            self.blocks.push(0)?;
        }
        Ok(())
    }
}
