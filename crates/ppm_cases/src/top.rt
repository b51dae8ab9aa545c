//! The top call over memory.
ghost use Rattle.std.specs.Prelude.{◌<◌};

use crate::watcher::{Watcher, count_told};
use ppm_ports::{MemorySink, MemorySource};
use ppm_sheets::{Call, Fault, Shown, Unmade};
use ppm_top::{WATCHERS, ppm};
use std::alloc::Global;
use std::sync::Wait;
use std::thread::Threads;

/// The bytes for which a sink has room besides those that are wanted.
const ROOM: usize = 100_000;

/// What the top call of a case wrote and answered, or why it can't be made.
pub(crate) fn tried<R: Threads + Wait + Sync>(
    rt: &R,
    alloc: Global,
    call: &Call,
) -> Result<Shown, Unmade> {
    let shown = shown(rt, alloc, call)?;
    Ok(shown)
}

/// What the top call of a case wrote and answered.
fn shown<R: Threads + Wait + Sync>(rt: &R, alloc: Global, call: &Call) -> Result<Shown, Fault> {
    let most = most_of(call);
    let input = call.input.as_slice().to_vec(alloc)?;
    let reads = call.reads.as_slice().to_vec(alloc)?;
    let mut source = MemorySource::new(input, most, reads);
    let mut out = sink(alloc, most, call.out.len(), &call.outs)?;
    let mut err = sink(alloc, most, call.err.len(), &call.errs)?;
    let watcher = Watcher {
        left: call.events,
        told: false,
    };
    let mut watch = vec![in alloc; watcher; WATCHERS]?;
    let status = ppm(
        rt,
        alloc,
        &call.words,
        &mut source,
        &mut out,
        &mut err,
        &mut watch,
    );
    Ok(Shown {
        out: out.bytes().to_vec(alloc)?,
        err: err.bytes().to_vec(alloc)?,
        status: status.number(),
        told: count_told(&watch),
    })
}

/// The most bytes that the ports of a call move at a time, 1 at least.
fn most_of(call: &Call) -> usize
    ensures { 0 < result }
{
    if call.most == 0 {
        return 1;
    }
    call.most as usize
}

/// A sink whose calls fail as given.
fn sink(alloc: Global, most: usize, wanted: usize, failing: &[u64]) -> Result<MemorySink, Fault>
    requires { 0 < most }
{
    let failing = failing.to_vec(alloc)?;
    match MemorySink::new(alloc, wanted.saturating_add(ROOM), most, failing) {
        Ok(sink) => Ok(sink),
        Err(_) => Err(Fault::NoMemory),
    }
}
