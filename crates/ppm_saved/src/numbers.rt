//! Numbers in the lines of a saved text.
ghost use Rattle.std.specs.Prelude.{◌≡◌, ◌++◌, OnOk};
ghost use Rattle.ppm_saved.specs.Text.{numbers_text};

use ppm_pieces::push_number;
use ppm_words::NoMemory;

/// Appends each of the numbers after a space, and a line feed.
pub(crate) fn push_numbers(text: &mut Vec<u8>, numbers: &[u64]) -> Result<(), NoMemory>
    ensures { OnOk result (text.new.items ≡ text.old.items ++ numbers_text numbers.now) }
{
    for number in numbers {
        text.push(b' ')?;
        push_number(text, *number)?;
    }
    text.push(b'\n')?;
    Ok(())
}
