//! The limits of a run.

use ppm_words::Idle;

/// The limits of a run, the same for each processor.
#[derive(Clone, Copy, Debug, PartialEq, Eq)]
pub struct Limits {
    /// How many work turns a processor makes at most, from 0 to 2^64 - 1; in place of one more it
    /// quits.
    pub turns: u64,
    /// After so many looks in a row, from 0 to 2^32 - 1, a processor rests where it would seek work
    /// again, unless it is the keeper.
    pub looks: u32,
    /// The seed of the victims that are drawn at random, from 0 to 2^32 - 1; with its number it
    /// settles the victims of each processor.
    pub seed: u32,
    /// What a processor does that rests: it leaves the run, or parks until another one wakes it.
    pub idle: Idle,
}
