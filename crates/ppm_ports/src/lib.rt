//! The ports: where bytes come from, where they go, and who is told the events of a run.
//! Model: a port shows what is left, was written or was told, where it can; it counts its faults.
//! Contract: what a call moves, when it may fail (`specs/Causes`), and whole texts (`specs/Whole`).
//! Stands on `ppm_words`; all commands read, write and tell through it.
//! After Rust's `Read` and `Write`; the counts of faults are this project's.
#![tactic(auto)]

mod failed;
mod memory_sink;
mod memory_source;
mod read_error;
mod reading;
mod recorder;
mod silent;
mod sink;
mod source;
mod std_sink;
mod std_source;
mod watch;
mod writing;

pub use failed::Failed;
pub use memory_sink::MemorySink;
pub use memory_source::MemorySource;
pub use read_error::ReadError;
pub use reading::read_whole;
pub use recorder::Recorder;
pub use silent::Silent;
pub use sink::Sink;
pub use source::Source;
pub use std_sink::StdSink;
pub use std_source::StdSource;
pub use watch::Watch;
pub use writing::write_whole;
