//! What a layer says to a call, and the numbers among a call's words.
use ppm_sheets::{Call, Fault, Shown};
use std::alloc::Global;

/// What a layer says.
#[derive(Drop)]
pub(crate) enum Said {
    /// On out, with status 0.
    Out(Vec<u8>),
    /// On err, with status 1: why it refuses what it read.
    Refused(String),
}

impl Said {
    /// A text on out.
    pub(crate) fn of_text(alloc: Global, text: &str) -> Result<Self, Fault> {
        Ok(Said::Out(text.as_bytes().to_vec(alloc)?))
    }

    /// What a call shows that says this.
    pub(crate) fn shown(self, alloc: Global) -> Result<Shown, Fault> {
        let (out, err, status) = match self {
            Said::Out(out) => (out, Vec::new(alloc), 0),
            Said::Refused(err) => (Vec::new(alloc), err.as_bytes().to_vec(alloc)?, 1),
        };
        Ok(Shown {
            out,
            err,
            status,
            told: 0,
        })
    }
}

/// The number that a word of a call gives; words count from 0.
pub(crate) fn number_at(call: &Call, at: usize) -> Result<u32, Fault> {
    if let Some(word) = call.words.get(at) {
        if let Ok(number) = word.parse::<u32>() {
            return Ok(number);
        }
    }
    Err(Fault::Line("a number is wanted among the words"))
}

/// The number of 64 bits that a word of a call gives; words count from 0.
pub(crate) fn wide_at(call: &Call, at: usize) -> Result<u64, Fault> {
    if let Some(word) = call.words.get(at) {
        if let Ok(number) = word.parse::<u64>() {
            return Ok(number);
        }
    }
    Err(Fault::Line("a number is wanted among the words"))
}
