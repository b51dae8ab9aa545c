//! What is told of a trap.
use ppm_by_name::Reading;
use ppm_words::{Items, Name, Trap};

/// A trap: its kind and line, the procedure in whose body it stands with the line of its name, and
/// the names of what is evaluated there, each once, in the order of the text. Lines count from 1.
#[derive(Debug, Drop)]
pub struct Told {
    pub trap: Trap,
    pub line: u32,
    pub procedure: Name,
    pub procedure_line: u32,
    pub values: Items<Reading>,
}
