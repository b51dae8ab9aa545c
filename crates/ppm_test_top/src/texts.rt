//! Saved texts.
use crate::calls::call;
use ppm_answers::Status;
use ppm_ports::Silent;
use ppm_top::WATCHERS;
use std::alloc::Global;
use std::process::Abort;
use std::sync::Wait;
use std::test::Fail;
use std::thread::Threads;

/// What `stop` writes of a source after so many acts of so many processors, whose places have so many
/// words of room.
pub(crate) fn stopped<R: Abort + Threads + Wait + Sync>(
    rt: &R,
    alloc: Global,
    source: &str,
    processors: &str,
    room: &str,
    after: &str,
) -> Result<Vec<u8>, Fail> {
    let words = [
        "ppm",
        "stop",
        "--processors",
        processors,
        "--room",
        room,
        "--slots",
        "16",
        "--after",
        after,
    ];
    let mut silent = vec![in alloc; Silent; WATCHERS]?;
    let got = call(rt, alloc, &words, source, &mut silent)?;
    assert_eq!(rt; got.status, Status::Ended, "{after}");
    Ok(got.out)
}

/// The text of a program with one array that does nothing, as a run of one processor begins: the
/// finish word, what the processor carries and whether it is dead; that its frame, at 10, runs; no
/// message, and the holder; the top of its deque, and how far its pool is used; two entries; the
/// root's link, its outcome, and the rest of its frame and of its pool; the array.
pub(crate) const LINES: [&'static str; 21] = [
    "saved 1",
    "shape 1 64 2",
    "array a 1",
    "code 57",
    "ppm 1",
    "root 0",
    "proc 0 slots 0 entry 0",
    "capsule 0 proc 0",
    "end",
    "words 75",
    "0*3",
    "576460756598390794",
    "0*2",
    "1",
    "16",
    "13835058055282163712",
    "4611686018427387904",
    "144115191297081344",
    "1",
    "0*62",
    "7",
];

/// That text with something else in place of one of its lines, which count from 1.
pub(crate) fn changed(alloc: Global, at: u32, with: &str) -> Result<Vec<u8>, Fail> {
    let mut text = Vec::new(alloc);
    let mut number = 0u32;
    for line in LINES {
        number = number.saturating_add(1);
        let bytes = if number == at {
            with.as_bytes()
        } else {
            line.as_bytes()
        };
        text.extend_from_slice(bytes)?;
        text.push(b'\n')?;
    }
    Ok(text)
}
