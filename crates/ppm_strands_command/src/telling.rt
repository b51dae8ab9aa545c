//! A run of strands as an answer tells it.
ghost use Rattle.std.specs.Prelude.{◌≡◌, ◌++◌, ◌≤◌, IfOk, length};
ghost use Rattle.ppm_depth.specs.Image.{word_count};
ghost use Rattle.ppm_strands_command.specs.Strands.{answer_by, came_by, lines_of, run_answer};

use crate::arrays::to_arrays;
use crate::lines::{push_all_done, push_fall};
use ppm_answers::{Answer, Came};
use ppm_cli::StrandsForm;
use ppm_depth::Finish;
use ppm_strand_runs::{Fall, StrandRun};
use ppm_words::{Items, NamedArray, NoMemory};
use std::alloc::Global;

/// What a run of so many turns came to, by the words of the arrays, and how the root's strand is
/// over.
fn came_told(
    alloc: Global,
    input: &[NamedArray],
    words: &[u64],
    turns: u64,
    finish: Option<Finish>,
) -> Result<Came, NoMemory>
    requires enough { word_count input.now ≤ length words.now }
    ensures { IfOk result (λ came. came ≡ came_by input.now words.now turns finish) }
{
    match finish {
        Some(Finish::Gave(_)) => Ok(Came::Ended(to_arrays(alloc, input, words)?)),
        Some(Finish::Trapped(trap, line)) => Ok(Came::Trapped(trap, line)),
        None => Ok(Came::Unfinished(turns)),
    }
}

/// The front, with the lines of a run in a form after it.
fn with_lines(
    alloc: Global,
    front: Vec<u8>,
    form: StrandsForm,
    input: &[NamedArray],
    run: &StrandRun,
) -> Result<Vec<u8>, NoMemory>
    ensures { IfOk result (λ text. text.items ≡ front.items ++ lines_of form input.now run.now) }
{
    let mut text = front;
    match form {
        StrandsForm::Arrays => Ok(text),
        StrandsForm::Text => {
            push_all_done(alloc, &mut text, input, &run.done)?;
            Ok(text)
        }
    }
}

/// The answer by the first fall, if there is one.
fn answer_with(
    alloc: Global,
    lines: Vec<u8>,
    came: Came,
    input: &[NamedArray],
    fall: Option<Fall>,
) -> Result<Answer, NoMemory>
    ensures { IfOk result (λ answer. answer ≡ answer_by lines.items came input.now fall) }
{
    match fall {
        None => Ok(Answer::Stood(Items::from_vec(lines), came)),
        Some(fall) => {
            let mut text = Vec::new(alloc);
            push_fall(alloc, &mut text, input, fall)?;
            Ok(Answer::Fell(Items::from_vec(lines), came, Items::from_vec(text)))
        }
    }
}

/// The answer of a run, whose lines stand after a front.
pub(crate) fn run_told(
    alloc: Global,
    front: Vec<u8>,
    form: StrandsForm,
    input: &[NamedArray],
    run: &StrandRun,
) -> Result<Answer, NoMemory>
    requires enough { word_count input.now ≤ length run.now.machine.words.items }
    ensures { IfOk result (λ answer. answer ≡ run_answer front.items form input.now run.now) }
{
    let lines = with_lines(alloc, front, form, input, run)?;
    let finish = run.machine.finish();
    let came = came_told(alloc, input, &run.machine.words, run.turns, finish)?;
    let answer = answer_with(alloc, lines, came, input, run.fall)?;
    Ok(answer)
}
