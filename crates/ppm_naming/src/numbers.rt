//! Numbers in brackets and after signs.
ghost use Rattle.std.specs.Prelude.{◌≡◌, ◌++◌, OnOk};
ghost use Rattle.ppm_naming.specs.Cells.{index_text, numbered};
ghost use Rattle.ppm_naming.specs.Values.{one_text, two_text, tag_text};

use ppm_pieces::push_number;
use ppm_words::NoMemory;

/// Appends a word of letters and signs.
pub(crate) fn push_word(text: &mut Vec<u8>, word: &str) -> Result<(), NoMemory>
    ensures { OnOk result (text.new.items ≡ text.old.items ++ word.now) }
{
    text.extend_from_slice(word.as_bytes())?;
    Ok(())
}

/// Appends a number in brackets.
pub(crate) fn push_one(text: &mut Vec<u8>, number: u32) -> Result<(), NoMemory>
    ensures { OnOk result (text.new.items ≡ text.old.items ++ one_text number) }
{
    text.push(b'(')?;
    push_number(text, u64::from(number))?;
    text.push(b')')?;
    Ok(())
}

/// Appends two numbers in brackets, with a separator between them.
pub(crate) fn push_two(
    text: &mut Vec<u8>,
    first: u32,
    separator: &str,
    second: u32,
) -> Result<(), NoMemory>
    ensures { OnOk result (text.new.items
        ≡ text.old.items ++ two_text first separator.now second) }
{
    text.push(b'(')?;
    push_number(text, u64::from(first))?;
    text.extend_from_slice(separator.as_bytes())?;
    push_number(text, u64::from(second))?;
    text.push(b')')?;
    Ok(())
}

/// Appends a tag.
pub(crate) fn push_tag(text: &mut Vec<u8>, tag: u64) -> Result<(), NoMemory>
    ensures { OnOk result (text.new.items ≡ text.old.items ++ tag_text tag) }
{
    text.push(b'#')?;
    push_number(text, tag)?;
    Ok(())
}

/// Appends an index in square brackets.
pub(crate) fn push_index(text: &mut Vec<u8>, index: u32) -> Result<(), NoMemory>
    ensures { OnOk result (text.new.items ≡ text.old.items ++ index_text index) }
{
    text.push(b'[')?;
    push_number(text, u64::from(index))?;
    text.push(b']')?;
    Ok(())
}

/// Appends a name with a number after a point.
pub(crate) fn push_numbered(text: &mut Vec<u8>, name: &str, number: u32) -> Result<(), NoMemory>
    ensures { OnOk result (text.new.items ≡ text.old.items ++ numbered name.now number) }
{
    text.extend_from_slice(name.as_bytes())?;
    text.push(b'.')?;
    push_number(text, u64::from(number))?;
    Ok(())
}
