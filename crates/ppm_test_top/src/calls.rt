//! The top call over memory.
use ppm_answers::Status;
use ppm_ports::{MemorySink, MemorySource, Watch};
use ppm_top::{WATCHERS, ppm};
use std::alloc::Global;
use std::sync::Wait;
use std::test::Fail;
use std::thread::Threads;

/// The bytes for which a sink has room.
const ROOM: usize = 300_000;

/// The most bytes that a port moves at a time.
const MOST: usize = 4096;

/// Words that ask for the code of a source.
pub(crate) const CODE: &[&str] = &["ppm", "code"];

/// What a call wrote and answered.
#[derive(Drop)]
pub(crate) struct Shown {
    pub(crate) status: Status,
    pub(crate) out: Vec<u8>,
    pub(crate) err: Vec<u8>,
}

/// A call of these words over ports that never fail, with these watchers. `Err` unless there is one
/// for each processor.
pub(crate) fn call<R: Threads + Wait + Sync, W: Watch>(
    rt: &R,
    alloc: Global,
    words: &[&str],
    text: &str,
    watch: &mut Vec<W>,
) -> Result<Shown, Fail> {
    call_over(rt, alloc, words, text.as_bytes(), watch)
}

/// A call that reads bytes, as a saved text is written.
pub(crate) fn call_over<R: Threads + Wait + Sync, W: Watch>(
    rt: &R,
    alloc: Global,
    words: &[&str],
    text: &[u8],
    watch: &mut Vec<W>,
) -> Result<Shown, Fail> {
    if watch.len() != WATCHERS {
        return Err(Fail::from("a watcher for each processor"));
    }
    let mut given = Vec::new(alloc);
    for word in words {
        given.push(String::from_str(alloc, word)?)?;
    }
    let mut source = MemorySource::new(text.to_vec(alloc)?, MOST, Vec::new(alloc));
    let mut out = sink(alloc)?;
    let mut err = sink(alloc)?;
    let status = ppm(rt, alloc, &given, &mut source, &mut out, &mut err, watch);
    Ok(Shown {
        status,
        out: out.bytes().to_vec(alloc)?,
        err: err.bytes().to_vec(alloc)?,
    })
}

/// A sink that never fails.
fn sink(alloc: Global) -> Result<MemorySink, Fail> {
    Ok(MemorySink::new(alloc, ROOM, MOST, Vec::new(alloc)).map_err(|_| "memory")?)
}
