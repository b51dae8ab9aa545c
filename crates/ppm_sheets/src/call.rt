//! A call of a case, what is wanted of it, and what it showed.
use crate::fault::Fault;
use std::alloc::Global;

/// A call, with what is wanted of it.
#[derive(Drop)]
pub struct Call {
    /// The line of the sheet at which it begins, from 1.
    pub line: usize,
    /// Whether nothing is called, and what it reads is only given a name.
    pub(crate) is_text: bool,
    /// Its words, the name of what is called first.
    pub words: Vec<String>,
    /// What it reads.
    pub input: Vec<u8>,
    /// The most bytes that its ports move at a time.
    pub most: u64,
    /// The reads that fail, from 0.
    pub reads: Vec<u64>,
    /// The writes on out that fail, from 0.
    pub outs: Vec<u64>,
    /// The writes on err that fail, from 0.
    pub errs: Vec<u64>,
    /// How many events each watcher takes; it refuses the next one.
    pub events: u64,
    /// What is wanted on out, unless it is kept.
    pub out: Vec<u8>,
    /// The name under which what is on out is kept.
    pub kept: Option<String>,
    /// What is wanted on err.
    pub err: Vec<u8>,
    /// The status that is wanted.
    pub status: u64,
    /// How many watchers are to be told something, where the sheet says it.
    pub told: Option<u64>,
}

/// What a call wrote and answered, and how many watchers were told something.
#[derive(Drop)]
pub struct Shown {
    pub out: Vec<u8>,
    pub err: Vec<u8>,
    pub status: u8,
    pub told: u64,
}

impl Call {
    /// A call without words or input. Its ports never fail; it is to write nothing and to end well.
    pub(crate) fn new(alloc: Global, line: usize) -> Self {
        Call {
            line,
            is_text: false,
            words: Vec::new(alloc),
            input: Vec::new(alloc),
            most: 4096,
            reads: Vec::new(alloc),
            outs: Vec::new(alloc),
            errs: Vec::new(alloc),
            events: 1_000_000_000,
            out: Vec::new(alloc),
            kept: None,
            err: Vec::new(alloc),
            status: 0,
            told: None,
        }
    }

    /// Whether this was wanted.
    pub(crate) fn is_met(&self, shown: &Shown) -> bool {
        let out = self.kept.is_some() || self.out.as_slice() == shown.out.as_slice();
        let told = match self.told {
            Some(told) => told == shown.told,
            None => true,
        };
        let err = self.err.as_slice() == shown.err.as_slice();
        out && err && told && self.status == u64::from(shown.status)
    }
}
