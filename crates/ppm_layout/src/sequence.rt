//! The opening words one after the other, but for those that tell of the root.
ghost use Rattle.std.specs.Prelude.{◌≡◌, ◌++◌, ◌≤◌, OnOk, replicate};
ghost use Rattle.ppm_layout.specs.Sequence.{carries, processor_words, entry_words};

use ppm_cells::{Entry, Finish};
use ppm_words::NoMemory;

/// Appends 0 so many times.
pub(crate) fn push_zeros(words: &mut Vec<u64>, count: u32) -> Result<(), NoMemory>
    ensures { OnOk result (words.new.items ≡ words.old.items ++ replicate count 0) }
{
    let length = words.len() + count as usize;
    words.resize(length, 0)?;
    Ok(())
}

/// Appends what each processor carries: the place of its number.
fn push_carries(words: &mut Vec<u64>, processors: u32) -> Result<(), NoMemory>
    ensures { OnOk result (words.new.items ≡ words.old.items ++ carries processors) }
{
    for processor in 0..processors {
        words.push(u64::from(processor))?;
    }
    Ok(())
}

/// Appends the words in front of the places: the finish word, the carry words and the dead words.
pub(crate) fn push_processors(words: &mut Vec<u64>, processors: u32) -> Result<(), NoMemory>
    ensures { OnOk result (words.new.items ≡ words.old.items ++ processor_words processors) }
{
    words.push(Finish::Unset.pack())?;
    push_carries(words, processors)?;
    push_zeros(words, processors)?;
    Ok(())
}

/// Appends the entries of a deque, all of whose tags are 0: one that is taken, one that is local,
/// and empty ones, whose words are 0.
pub(crate) fn push_entries(words: &mut Vec<u64>, slots: u32) -> Result<(), NoMemory>
    requires { 2 ≤ slots }
    ensures { OnOk result (words.new.items ≡ words.old.items ++ entry_words slots) }
{
    words.push(Entry::Taken { tag: 0, taker: 0 }.pack())?;
    words.push(Entry::Local { tag: 0, block: 0 }.pack())?;
    push_zeros(words, slots - 2)
}
