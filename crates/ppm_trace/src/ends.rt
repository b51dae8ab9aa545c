//! The head and the tail of a trace.
ghost use Rattle.std.specs.Prelude.{◌≡◌, ◌++◌, ◌∷◌, [], OnOk};
ghost use Rattle.ppm_trace.specs.Trace.{columns, head_text, named, sizes_text, tail_text};
ghost use Rattle.ppm_trace.specs.Trace.{takeover_text};

use crate::counts::Counts;
use ppm_cells::{Shape, Takeover};
use ppm_naming::{WordKind, push_value};
use ppm_pieces::push_number;
use ppm_words::NoMemory;
use std::alloc::Global;

/// Appends a word.
fn push_word(text: &mut Vec<u8>, word: &str) -> Result<(), NoMemory>
    ensures { OnOk result (text.new.items ≡ text.old.items ++ word.now) }
{
    text.extend_from_slice(word.as_bytes())?;
    Ok(())
}

/// Appends a number with its name.
fn push_named(text: &mut Vec<u8>, name: &str, number: u64) -> Result<(), NoMemory>
    ensures { OnOk result (text.new.items ≡ text.old.items ++ named name.now number) }
{
    push_word(text, name)?;
    push_number(text, number)?;
    Ok(())
}

/// Appends a size with its name.
fn push_size(text: &mut Vec<u8>, name: &str, size: u32) -> Result<(), NoMemory>
    ensures { OnOk result (text.new.items ≡ text.old.items ++ named name.now size) }
{
    push_named(text, name, u64::from(size))
}

/// Appends what others take over of a processor that stopped.
fn push_takeover(text: &mut Vec<u8>, takeover: Takeover) -> Result<(), NoMemory>
    ensures { OnOk result (text.new.items ≡ text.old.items ++ takeover_text takeover) }
{
    match takeover {
        Takeover::ByPlaces => push_word(text, " takeover place"),
        Takeover::ByEntries => push_word(text, " takeover entry"),
    }
}

/// Appends the sizes of a machine.
fn push_sizes(text: &mut Vec<u8>, shape: &Shape) -> Result<(), NoMemory>
    ensures { OnOk result (text.new.items ≡ text.old.items ++ sizes_text shape.now) }
{
    push_size(text, "processors ", shape.processors)?;
    push_size(text, " room ", shape.room)?;
    push_size(text, " slots ", shape.slots)?;
    push_takeover(text, shape.takeover)?;
    Ok(())
}

/// Appends the names of the columns.
fn push_columns(text: &mut Vec<u8>) -> Result<(), NoMemory>
    ensures { OnOk result (text.new.items ≡ text.old.items ++ columns) }
{
    let columns = "act    who at row    of               step  word               value";
    push_word(text, columns)
}

/// Appends the head of a trace from an act on.
pub(crate) fn push_head(text: &mut Vec<u8>, shape: &Shape, from: u64) -> Result<(), NoMemory>
    ensures { OnOk result (text.new.items ≡ text.old.items ++ head_text shape.now from) }
{
    push_word(text, "ppm trace 1")?;
    text.push(b'\n')?;
    push_sizes(text, shape)?;
    push_named(text, " from ", from)?;
    text.push(b'\n')?;
    push_columns(text)?;
    text.push(b'\n')?;
    Ok(())
}

/// Appends the tail of a trace.
pub(crate) fn push_tail(
    alloc: Global,
    text: &mut Vec<u8>,
    counts: Counts,
    finish: u64,
) -> Result<(), NoMemory>
    ensures { OnOk result (text.new.items ≡ text.old.items ++ tail_text counts finish) }
{
    push_named(text, "acts ", counts.acts)?;
    push_named(text, " forks ", counts.forks)?;
    push_named(text, " takes ", counts.takes)?;
    push_named(text, " tries ", counts.tries)?;
    push_named(text, " won ", counts.won)?;
    push_named(text, " soft ", counts.soft)?;
    push_named(text, " hard ", counts.hard)?;
    push_named(text, " takeovers ", counts.takeovers)?;
    push_word(text, " finish ")?;
    push_value(alloc, text, WordKind::Finish, finish)?;
    text.push(b'\n')?;
    Ok(())
}
