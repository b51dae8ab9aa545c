//! The watchers of a run, by the words that ask for it.
use crate::counts::Counts;
use ppm_cells::Shape;
use ppm_cli::{Command, RunOptions, read_words};
use ppm_top::WATCHERS;
use ppm_words::NoMemory;
use std::alloc::Global;

/// A watcher for each processor that a run may have, and whether the words ask for a run.
pub(crate) fn watchers_of(
    alloc: Global,
    words: &[String],
) -> Result<(Vec<Counts>, bool), NoMemory> {
    let shape = shape_of(alloc, words)?;
    let mut watch = Vec::new(alloc);
    for _ in 0..WATCHERS {
        watch.push(Counts::new(shape))?;
    }
    Ok((watch, shape.is_some()))
}

/// The sizes of the run that the words ask for, without its arrays, which lie after all else.
fn shape_of(alloc: Global, words: &[String]) -> Result<Option<Shape>, NoMemory> {
    match read_words(alloc, words)? {
        Some(Command::Run(options, _)) => Ok(shape_with(options)),
        Some(Command::RunCase(options, _)) => Ok(shape_with(options)),
        _ => Ok(None),
    }
}

/// The sizes of a run with these options, but for its arrays.
fn shape_with(options: RunOptions) -> Option<Shape> {
    Shape::new(options.processors, options.room, options.slots, 0)
}
