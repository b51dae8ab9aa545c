//! What a depth-first run counts, and the lines that tell it.
ghost use Rattle.std.specs.Prelude.{◌≡◌, ◌++◌, IfOk};
ghost use Rattle.ppm_answers.specs.Texts.{counts_text, sound_text, not_within_capsules_text};

use std::alloc::{AllocError, Global};

/// What the depth-first run of a code counts.
#[derive(Clone, Copy, Debug, PartialEq, Eq)]
pub struct Counts {
    /// How many capsules were run.
    pub capsules: u64,
    /// How many forks were made.
    pub forks: u64,
    /// How many words were taken from the pool for the blocks of calls and forks.
    pub pool_words: u64,
}

/// The text with the line of the counts after it.
pub(crate) fn with_counts(
    alloc: Global,
    mut text: Vec<u8>,
    counts: Counts,
) -> Result<Vec<u8>, AllocError>
    ensures { IfOk result (λ all. all.items ≡ text.items ++ counts_text counts) }
{
    let line = counts_text_of(alloc, counts)?;
    text.extend_from_slice(&line)?;
    Ok(text)
}

/// The line of the counts of a code that is sound with its input.
pub(crate) fn sound_text_of(alloc: Global, counts: Counts) -> Result<Vec<u8>, AllocError>
    ensures { IfOk result (λ text. text.items ≡ sound_text counts) }
{
    let text = Vec::from_slice(alloc, b"sound: ")?;
    let line = with_counts(alloc, text, counts)?;
    Ok(line)
}

/// The line of the counts.
fn counts_text_of(alloc: Global, counts: Counts) -> Result<Vec<u8>, AllocError>
    ensures { IfOk result (λ text. text.items ≡ counts_text counts) }
{
    let Counts {
        capsules,
        forks,
        pool_words,
    } = counts;
    let text = format!(in alloc; "capsules {capsules} forks {forks} pool words {pool_words}\n")?;
    Ok(text.into_bytes())
}

/// The line of a depth-first run that has more capsules.
pub(crate) fn not_within_capsules_text_of(
    alloc: Global,
    capsules: u64,
) -> Result<Vec<u8>, AllocError>
    ensures { IfOk result (λ text. text.items ≡ not_within_capsules_text capsules) }
{
    let text = format!(in alloc; "not within {capsules} capsules\n")?;
    Ok(text.into_bytes())
}
