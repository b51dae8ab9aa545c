//! What names stand for, as it is told.
use ppm_words::Name;

/// What a name stands for.
#[derive(Clone, Copy, Debug, PartialEq, Eq)]
pub enum Held {
    /// A local, with its value.
    Value(i64),
    /// A region, with how many words it has.
    Words(usize),
}

/// A name that is read, and what it stands for.
#[derive(Debug, Drop)]
pub struct Reading {
    pub name: Name,
    pub held: Held,
}
