//! What comes before all events, and what after.
ghost use Rattle.std.specs.Prelude.{◌≡◌, ◌++◌, OnOk};
ghost use Rattle.std.specs.List.{flat_map, range_with_len};
ghost use Rattle.ppm_lines.specs.Events.{json_head, json_tail, thread_text};

use crate::name::push_word;
use ppm_pieces::push_number;
use ppm_words::NoMemory;

/// Appends the name of a thread.
fn push_thread(text: &mut Vec<u8>, processor: u32) -> Result<(), NoMemory>
    ensures { OnOk result (text.new.items ≡ text.old.items ++ thread_text processor) }
{
    push_word(
        text,
        ",\n{\"ph\":\"M\",\"name\":\"thread_name\",\"pid\":0,\"tid\":",
    )?;
    push_number(text, u64::from(processor))?;
    push_word(text, ",\"args\":{\"name\":\"processor ")?;
    push_number(text, u64::from(processor))?;
    push_word(text, "\"}}")?;
    Ok(())
}

/// Appends those of all processors.
fn push_threads(text: &mut Vec<u8>, processors: u32) -> Result<(), NoMemory>
    ensures { OnOk result (text.new.items
        ≡ text.old.items ++ flat_map thread_text (range_with_len 0 processors)) }
{
    for processor in 0..processors {
        push_thread(text, processor)?;
    }
    Ok(())
}

/// Appends what comes before all events: what each thread is called. `Err` only where memory is
/// refused.
pub fn push_json_head(text: &mut Vec<u8>, processors: u32) -> Result<(), NoMemory>
    ensures { OnOk result (text.new.items ≡ text.old.items ++ json_head processors) }
{
    push_word(
        text,
        "{\"displayTimeUnit\":\"ns\",\"traceEvents\":[\n{\"ph\":\"M\",\"name\":\"process_name\",\"pid\":0,\"args\":{\"name\":\"ppm\"}}",
    )?;
    push_threads(text, processors)
}

/// Appends what comes after all events. `Err` only where memory is refused.
pub fn push_json_tail(text: &mut Vec<u8>) -> Result<(), NoMemory>
    ensures { OnOk result (text.new.items ≡ text.old.items ++ json_tail) }
{
    push_word(text, "\n]}\n")
}
