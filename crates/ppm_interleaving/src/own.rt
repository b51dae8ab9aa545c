//! The words of a strand's own.
ghost use Rattle.std.specs.Prelude.{◌≡◌, ℕ, OnOk, IfOk, get_or};
ghost use Rattle.std.specs.Prelude.{◌==◌, ◌<◌, ◌^◌, if◌then◌else◌};
ghost use Rattle.ppm_strands.specs.Capsule.{Memory, store};
ghost use Rattle.ppm_code.specs.Strands.{built};
ghost use Rattle.ppm_filled.specs.Racing.{OwnWord, OfFrame, OfBlock, own_words, framed, block_in};
ghost use Rattle.ppm_interleaving.specs.Owns.{ShowsOwn, frame_word_in, slots_from};

use ppm_code::FrameWord;
use ppm_words::NoMemory;
use std::alloc::Global;

/// The words of a strand's frame, and of the block that its capsule builds. Slots past the last one
/// that was stored are 0, and words of the block likewise.
#[derive(Debug, Drop)]
pub struct Own {
    pub slots: Vec<u64>,
    pub value: u64,
    pub block: Vec<u64>,
}

/// The word at a place; 0 past the last.
pub(crate) fn word_at(words: &[u64], place: usize) -> u64
    ensures { result ≡ get_or words.now place 0 }
{
    match words.get(place) {
        Some(word) => *word,
        None => 0,
    }
}

/// Puts a word at a place, with zeros before it where there are none.
fn put_at(words: &mut Vec<u64>, place: usize, word: u64) -> Result<(), NoMemory>
    ensures { OnOk result ((at : ℕ) → get_or words.new.items at 0
        ≡ (if at == place then word else get_or words.old.items at 0)) }
{
    while words.len() <= place {
        words.push(0)?;
    }
    words[place] = word;
    Ok(())
}

/// The words from a place on, so many.
fn words_from(alloc: Global, words: &[u64], place: usize, count: u32) -> Result<Vec<u64>, NoMemory>
    requires { place < 2 ^ 41 }
    ensures { IfOk result (λ found. found.items ≡ slots_from words.now place count) }
{
    let mut found = Vec::new(alloc);
    for at in 0..count {
        found.push(word_at(words, place + at as usize))?;
    }
    Ok(found)
}

impl Own {
    /// A word of the frame.
    pub(crate) fn frame_word(&self, word: FrameWord) -> u64
        ensures { result ≡ frame_word_in self.now word }
    {
        match word {
            FrameWord::Slot(slot) => word_at(&self.slots, slot as usize),
            FrameWord::Value => self.value,
        }
    }

    /// A word of the block.
    pub(crate) fn block_word(&self, offset: u32) -> u64
        ensures { result ≡ get_or self.now.block.items offset 0 }
    {
        word_at(&self.block, offset as usize)
    }

    /// Puts a word into the frame.
    pub(crate) fn put_frame(&mut self, word: FrameWord, value: u64) -> Result<(), NoMemory>
        ensures { OnOk result ((o : Memory OwnWord) → ShowsOwn self.old o
            → ShowsOwn self.new (store own_words o (OfFrame word) value)) }
    {
        match word {
            FrameWord::Slot(slot) => put_at(&mut self.slots, slot as usize, value),
            FrameWord::Value => {
                self.value = value;
                Ok(())
            }
        }
    }

    /// Puts a word into the block.
    pub(crate) fn put_block(&mut self, offset: u32, value: u64) -> Result<(), NoMemory>
        ensures { OnOk result ((o : Memory OwnWord) → ShowsOwn self.old o
            → ShowsOwn self.new (store own_words o (OfBlock offset) value)) }
    {
        put_at(&mut self.block, offset as usize, value)
    }

    /// The frame of a procedure with so many slots, as it lies in the block.
    pub(crate) fn built(&self, alloc: Global, slots: u32, frame: usize) -> Result<Own, NoMemory>
        requires { frame < 2 ^ 40 }
        ensures { IfOk result (λ own. (o : Memory OwnWord) → ShowsOwn self.now o
            → ShowsOwn own (framed (built slots frame (block_in o)))) }
    {
        let slots = words_from(alloc, &self.block, frame + 6, slots)?;
        Ok(Own {
            slots,
            value: word_at(&self.block, frame + 4),
            block: Vec::new(alloc),
        })
    }
}
