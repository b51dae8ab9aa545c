//! What is counted in a run of a machine, and the line that tells it.
ghost use Rattle.std.specs.Prelude.{◌≡◌, ◌++◌, IfOk};
ghost use Rattle.ppm_answers.specs.Texts.{acts_words, branch_words, fault_words};
ghost use Rattle.ppm_answers.specs.Texts.{run_counts_text, tally_text, tally_in as tally_of_counts};

use crate::tally::{Tally, with_tally};
use std::alloc::{AllocError, Global};

/// What is counted in a run of a machine.
#[derive(Clone, Copy, Debug, PartialEq, Eq)]
pub struct RunCounts {
    /// How many acts the processors made: steps, faults and quits.
    pub acts: u64,
    /// How many of these were work turns.
    pub work: u64,
    /// How many were none.
    pub looks: u64,
    /// How many forks were made.
    pub forks: u64,
    /// How many right branches were taken, by thieves or by their own processors.
    pub takes: u64,
    /// How many thefts were won.
    pub stolen: u64,
    /// How often what a dead processor left was taken over: its place, or the strand of its place.
    pub takeovers: u64,
    /// How many soft faults there were.
    pub soft: u64,
    /// How many hard ones.
    pub hard: u64,
    /// How many faults that were ordered no act met.
    pub missed: u64,
    /// How many words the pool of a place gave out, of the place whose pool gave out the most.
    pub room: u64,
}

/// Its forks and takes.
pub(crate) fn tally_in(counts: RunCounts) -> Tally
    ensures { result ≡ tally_of_counts counts }
{
    Tally {
        forks: counts.forks,
        takes: counts.takes,
    }
}

/// The text with the line of the counts after it.
pub(crate) fn with_run_counts(
    alloc: Global,
    mut text: Vec<u8>,
    counts: RunCounts,
) -> Result<Vec<u8>, AllocError>
    ensures { IfOk result (λ all. all.items ≡ text.items ++ run_counts_text counts) }
{
    let line = run_counts_text_of(alloc, counts)?;
    text.extend_from_slice(&line)?;
    Ok(text)
}

/// The text with the line of the tally after it, and then that of the counts.
pub(crate) fn with_tally_and_counts(
    alloc: Global,
    text: Vec<u8>,
    counts: RunCounts,
) -> Result<Vec<u8>, AllocError>
    ensures { IfOk result (λ all. all.items
        ≡ text.items ++ tally_text (tally_of_counts counts) ++ run_counts_text counts) }
{
    let tallied = with_tally(alloc, text, tally_in(counts))?;
    with_run_counts(alloc, tallied, counts)
}

/// The line of the counts.
fn run_counts_text_of(alloc: Global, counts: RunCounts) -> Result<Vec<u8>, AllocError>
    ensures { IfOk result (λ text. text.items ≡ run_counts_text counts) }
{
    let mut text = acts_words_of(alloc, counts)?;
    let branches = branch_words_of(alloc, counts)?;
    text.extend_from_slice(&branches)?;
    let faults = fault_words_of(alloc, counts)?;
    text.extend_from_slice(&faults)?;
    Ok(text)
}

/// Its words for acts.
fn acts_words_of(alloc: Global, counts: RunCounts) -> Result<Vec<u8>, AllocError>
    ensures { IfOk result (λ text. text.items ≡ acts_words counts) }
{
    let RunCounts {
        acts,
        work,
        looks,
        ..
    } = counts;
    let text = format!(in alloc; "acts {acts} work {work} looks {looks} ")?;
    Ok(text.into_bytes())
}

/// Its words for branches.
fn branch_words_of(alloc: Global, counts: RunCounts) -> Result<Vec<u8>, AllocError>
    ensures { IfOk result (λ text. text.items ≡ branch_words counts) }
{
    let RunCounts {
        forks,
        takes,
        stolen,
        takeovers,
        ..
    } = counts;
    let text = format!(in alloc;
        "forks {forks} takes {takes} stolen {stolen} takeovers {takeovers} "
    )?;
    Ok(text.into_bytes())
}

/// Its words for faults and room.
fn fault_words_of(alloc: Global, counts: RunCounts) -> Result<Vec<u8>, AllocError>
    ensures { IfOk result (λ text. text.items ≡ fault_words counts) }
{
    let RunCounts {
        soft,
        hard,
        missed,
        room,
        ..
    } = counts;
    let text = format!(in alloc; "soft {soft} hard {hard} missed {missed} room {room}\n")?;
    Ok(text.into_bytes())
}
