//! What is told of the place where a run stands.
use ppm_by_name::Reading;
use ppm_words::{Items, Name};

/// Where a run stands when its turns are spent: the line, the procedure that runs with the line of
/// its name, and the names of what comes next, each once, in the order of the text. Then how many
/// calls are open, and in which line the innermost of them stands; it is 0 where none is open. Lines
/// count from 1.
#[derive(Debug, Drop)]
pub struct Stood {
    pub line: u32,
    pub procedure: Name,
    pub procedure_line: u32,
    pub values: Items<Reading>,
    pub calls: u64,
    pub call_line: u32,
}
