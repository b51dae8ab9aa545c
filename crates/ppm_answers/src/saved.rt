//! Why a saved text is refused, and the line that tells it.
ghost use Rattle.std.specs.Prelude.{◌≡◌, IfOk};
ghost use Rattle.ppm_answers.specs.Texts.{saved_line};

use std::alloc::{AllocError, Global};

/// The fault for which a text is that of no saved state.
#[derive(Clone, Copy, Debug, PartialEq, Eq)]
pub struct SavedRefusal {
    /// The fault's number, from 1 to 5.
    pub number: u32,
    /// The line of the fault, from 1.
    pub line: u32,
}

/// The line of a text that is none of a saved state.
pub(crate) fn saved_line_of(alloc: Global, refusal: SavedRefusal) -> Result<Vec<u8>, AllocError>
    ensures { IfOk result (λ text. text.items ≡ saved_line refusal) }
{
    let SavedRefusal { number, line } = refusal;
    let text = format!(in alloc; "saved refused: {number} line {line}\n")?;
    Ok(text.into_bytes())
}
