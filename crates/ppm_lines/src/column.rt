//! Fields of a line.
ghost use Rattle.std.specs.Prelude.{◌≡◌, ◌++◌, ◌-◌, ◌≤◌, [], ◌∷◌, List, ℕ, OnOk, length, replicate};
ghost use Rattle.ppm_lines.specs.Line.{field};

use ppm_words::NoMemory;

/// Appends so many blanks.
fn push_blanks(text: &mut Vec<u8>, count: usize) -> Result<(), NoMemory>
    ensures { OnOk result (text.new.items ≡ text.old.items ++ replicate count 32) }
{
    for _ in 0..count {
        text.push(b' ')?;
    }
    Ok(())
}

/// Fills a field up to its width, and appends one blank more. The text of the field is what stands
/// from `start` on.
pub fn fill(text: &mut Vec<u8>, start: usize, width: usize) -> Result<(), NoMemory>
    requires { start ≤ length text.old.items }
    ensures { (front words : List ℕ) → text.old.items ≡ front ++ words → start ≡ length front
        → OnOk result (text.new.items ≡ front ++ field width words) }
{
    let written = text.len() - start;
    push_blanks(text, width.saturating_sub(written))?;
    text.push(b' ')?;
    Ok(())
}
