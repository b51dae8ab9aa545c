//! Commands over memory.
use ppm_answers::Status;
use ppm_ports::{MemorySink, MemorySource, Silent};
use ppm_top::{WATCHERS, ppm};
use std::alloc::Global;
use std::process::Abort;
use std::sync::Wait;
use std::test::Fail;
use std::thread::Threads;

/// The bytes for which a sink has room.
const ROOM: usize = 1_000_000;

/// The most bytes that a port moves at a time.
const MOST: usize = 4096;

/// What a command writes on out of a source. Blanks divide the command's words. It has to end with
/// status 0.
pub(crate) fn shown<R: Abort + Threads + Wait + Sync>(
    rt: &R,
    alloc: Global,
    command: &str,
    source: &str,
) -> Result<String, Fail> {
    let mut given = Vec::new(alloc);
    given.push(String::from_str(alloc, "ppm")?)?;
    for word in command.split_whitespace() {
        given.push(String::from_str(alloc, word)?)?;
    }
    let mut source = MemorySource::new(source.as_bytes().to_vec(alloc)?, MOST, Vec::new(alloc));
    let mut out = sink(alloc)?;
    let mut err = sink(alloc)?;
    let mut silent = vec![in alloc; Silent; WATCHERS]?;
    if silent.len() != WATCHERS {
        return Err(Fail::from("a watcher for each processor"));
    }
    let status = ppm(
        rt,
        alloc,
        &given,
        &mut source,
        &mut out,
        &mut err,
        &mut silent,
    );
    assert_eq!(rt; status, Status::Ended);
    text_of(alloc, out.bytes())
}

/// Bytes as a text.
fn text_of(alloc: Global, bytes: &[u8]) -> Result<String, Fail> {
    match str::from_utf8(bytes) {
        Ok(text) => Ok(String::from_str(alloc, text)?),
        Err(_) => Err(Fail::from("a text")),
    }
}

/// A sink that never fails.
fn sink(alloc: Global) -> Result<MemorySink, Fail> {
    Ok(MemorySink::new(alloc, ROOM, MOST, Vec::new(alloc)).map_err(|_| "memory")?)
}
