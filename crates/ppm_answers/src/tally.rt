//! What a replay counts, and the line that tells it.
ghost use Rattle.std.specs.Prelude.{◌≡◌, ◌++◌, IfOk};
ghost use Rattle.ppm_answers.specs.Texts.{tally_text};

use std::alloc::{AllocError, Global};

/// What a replay counts.
#[derive(Clone, Copy, Debug, PartialEq, Eq)]
pub struct Tally {
    /// How many forks were made.
    pub forks: u64,
    /// How many right branches were taken, by thieves or by their own processors.
    pub takes: u64,
}

/// The text with the line of the tally after it.
pub(crate) fn with_tally(
    alloc: Global,
    mut text: Vec<u8>,
    tally: Tally,
) -> Result<Vec<u8>, AllocError>
    ensures { IfOk result (λ all. all.items ≡ text.items ++ tally_text tally) }
{
    let line = tally_text_of(alloc, tally)?;
    text.extend_from_slice(&line)?;
    Ok(text)
}

/// The line of a tally.
fn tally_text_of(alloc: Global, tally: Tally) -> Result<Vec<u8>, AllocError>
    ensures { IfOk result (λ text. text.items ≡ tally_text tally) }
{
    let Tally { forks, takes } = tally;
    let text = format!(in alloc; "forks {forks} takes {takes}\n")?;
    Ok(text.into_bytes())
}
