//! What is written of runs of strands.
ghost use Rattle.std.specs.Prelude.{◌≡◌, ◌++◌, IfOk};
ghost use Rattle.ppm_answers.specs.Texts.{all_stood_text, came_text, fell_text};
ghost use Rattle.ppm_answers.specs.Texts.{stood_err, stood_out};

use crate::sweep::{Came, came_text_of};
use std::alloc::{AllocError, Global};

/// The lines, and after them what a run came to.
fn with_end(alloc: Global, lines: &[u8], came: &Came) -> Result<Vec<u8>, AllocError>
    ensures { IfOk result (λ text. text.items ≡ lines.now ++ came_text came.now) }
{
    let mut text = lines.to_vec(alloc)?;
    let end = came_text_of(alloc, came)?;
    text.extend_from_slice(&end)?;
    Ok(text)
}

/// What is written on out of a run in which all stood: its lines, and the arrays or the trap.
pub(crate) fn stood_out_of(alloc: Global, lines: &[u8], came: &Came) -> Result<Vec<u8>, AllocError>
    ensures { IfOk result (λ text. text.items ≡ stood_out lines.now came.now) }
{
    match came {
        Came::Ended(_) => with_end(alloc, lines, came),
        Came::Trapped(_, _) => with_end(alloc, lines, came),
        Came::Unfinished(_) => Ok(Vec::new(alloc)),
        Came::OutOfRoom(_) => Ok(Vec::new(alloc)),
        Came::Broken(_) => Ok(Vec::new(alloc)),
    }
}

/// And on err: its lines, and why it has no end.
pub(crate) fn stood_err_of(alloc: Global, lines: &[u8], came: &Came) -> Result<Vec<u8>, AllocError>
    ensures { IfOk result (λ text. text.items ≡ stood_err lines.now came.now) }
{
    match came {
        Came::Ended(_) => Ok(Vec::new(alloc)),
        Came::Trapped(_, _) => Ok(Vec::new(alloc)),
        Came::Unfinished(_) => with_end(alloc, lines, came),
        Came::OutOfRoom(_) => with_end(alloc, lines, came),
        Came::Broken(_) => with_end(alloc, lines, came),
    }
}

/// The lines of a run in which something fell: those of its turns, what it came to, and what fell.
pub(crate) fn fell_text_of(
    alloc: Global,
    lines: &[u8],
    came: &Came,
    fall: &[u8],
) -> Result<Vec<u8>, AllocError>
    ensures { IfOk result (λ text. text.items ≡ fell_text lines.now came.now fall.now) }
{
    let mut text = with_end(alloc, lines, came)?;
    text.extend_from_slice(fall)?;
    Ok(text)
}

/// The line of runs in none of which something fell.
pub(crate) fn all_stood_text_of(alloc: Global, runs: u32) -> Result<Vec<u8>, AllocError>
    ensures { IfOk result (λ text. text.items ≡ all_stood_text runs) }
{
    let text = format!(in alloc; "ok: {runs} runs\n")?;
    Ok(text.into_bytes())
}
