//! Threads that act side by side: each watcher takes its next event only where the other one has as
//! many.
use crate::meeting::Meeting;
use crate::tables::{WIDE, is_right, run};
use std::alloc::Global;
use std::sync::atomic::{AtomicU64, Ordering};
use std::test::Fail;

/// How often two watchers meet.
const MEETINGS: u64 = 16;

/// More events than a watcher is told here.
const MANY: usize = 1_000_000;

#[test]
fn two_meet(rt: HostRuntime) -> Result<(), Fail> {
    let alloc: Global = rt.alloc();
    let first = AtomicU64::new(0);
    let second = AtomicU64::new(0);
    let mut watch = Vec::new(alloc);
    watch.push(Meeting {
        here: &first,
        there: &second,
        meetings: MEETINGS,
        room: MANY,
        events: Vec::new(alloc),
    })?;
    watch.push(Meeting {
        here: &second,
        there: &first,
        meetings: MEETINGS,
        room: MANY,
        events: Vec::new(alloc),
    })?;
    let closed = run(&rt, alloc, "none", WIDE, 2, &mut watch)?.ok_or("they don't meet")?;
    assert!(&rt; is_right(alloc, &closed)?);
    assert_eq!(&rt; first.load(Ordering::SeqCst), MEETINGS);
    assert_eq!(&rt; second.load(Ordering::SeqCst), MEETINGS);
    Ok(())
}
