//! The names that stand for texts, and numbers.
use crate::fault::Fault;
use std::alloc::Global;

/// A name and its text.
#[derive(Drop)]
struct Named {
    name: String,
    text: Vec<u8>,
}

/// Names with their texts; of two that are alike the later one counts.
#[derive(Drop)]
pub(crate) struct Names {
    all: Vec<Named>,
}

impl Names {
    /// No names.
    pub(crate) fn new(alloc: Global) -> Self {
        Names {
            all: Vec::new(alloc),
        }
    }

    /// How many there are.
    pub(crate) fn count(&self) -> usize {
        self.all.len()
    }

    /// Forgets all but the first ones.
    pub(crate) fn keep_first(&mut self, count: usize) {
        self.all.truncate(count);
    }

    /// Gives a text a name.
    pub(crate) fn put(&mut self, alloc: Global, name: &str, text: Vec<u8>) -> Result<(), Fault> {
        let name = String::from_str(alloc, name)?;
        self.all.push(Named { name, text })?;
        Ok(())
    }

    /// The text of a name.
    pub(crate) fn text(&self, name: &[u8]) -> Result<&[u8], Fault> {
        let mut found = None;
        for named in &self.all {
            if named.name.as_bytes() == name {
                found = Some(named.text.as_slice());
            }
        }
        match found {
            Some(text) => Ok(text),
            None => Err(Fault::Line("a name that stands for nothing")),
        }
    }
}

/// The number of a text.
pub(crate) fn number(text: &[u8]) -> Result<u64, Fault> {
    if let Ok(text) = std::str::from_utf8(text) {
        if let Ok(number) = text.parse::<u64>() {
            return Ok(number);
        }
    }
    Err(Fault::Line("a number is wanted"))
}
