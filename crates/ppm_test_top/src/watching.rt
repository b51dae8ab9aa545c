//! What the watchers of a run are told through the top call, where several processors act side by
//! side; and how one that refuses ends the run.
use crate::calls::{CODE, call};
use crate::sources::SUM;
use ppm_answers::Status;
use ppm_cells::Shape;
use ppm_choice::{Idle, Limits};
use ppm_code::Code;
use ppm_listing_reader::read_listing;
use ppm_plan::{Plan, read_plan};
use ppm_ports::Silent;
use ppm_test_threads::{Meeting, obeys};
use ppm_top::WATCHERS;
use ppm_words::Event;
use std::alloc::Global;
use std::process::Abort;
use std::sync::Wait;
use std::sync::atomic::{AtomicU64, Ordering};
use std::test::Fail;
use std::thread::Threads;

/// Watchers for a run, of which the first two meet so often, and the first has room for so many
/// events.
fn watchers<'a>(
    alloc: Global,
    first: &'a AtomicU64,
    second: &'a AtomicU64,
    meetings: u64,
    room: usize,
) -> Result<Vec<Meeting<'a>>, Fail> {
    let mut all = Vec::new(alloc);
    all.push(Meeting {
        here: first,
        there: second,
        meetings,
        room,
        events: Vec::new(alloc),
    })?;
    for _ in 1..WATCHERS {
        all.push(Meeting {
            here: second,
            there: first,
            meetings,
            room: 1_000_000,
            events: Vec::new(alloc),
        })?;
    }
    Ok(all)
}

/// A machine with its program, and what its processors obey.
#[derive(Drop)]
struct Obeyed {
    shape: Shape,
    code: Code,
    plan: Plan,
    limits: Limits,
}

/// The sum by halves on three processors with this plan.
fn sum_on_three<R: Abort + Threads + Wait + Sync>(
    rt: &R,
    alloc: Global,
    takeover: &str,
    faults: &str,
    limits: Limits,
) -> Result<Obeyed, Fail> {
    let mut silent = vec![in alloc; Silent; WATCHERS]?;
    let listing = call(rt, alloc, CODE, SUM, &mut silent)?;
    assert_eq!(rt; listing.status, Status::Ended);
    let places = Shape::new(3, 256, 16, 4).ok_or("within the limits")?;
    Ok(Obeyed {
        shape: if takeover == "entry" {
            places.stealing()
        } else {
            places
        },
        code: read_listing(alloc, listing.out.as_slice()).map_err(|_| "no listing")?,
        plan: read_plan(alloc, faults.as_bytes(), 3).map_err(|_| "no plan")?,
        limits,
    })
}

/// How many of these events say that a processor parks.
fn parkings(events: &[Event]) -> usize {
    events.iter().filter(|event| event.step == 7).count()
}

/// Fails unless the lists of three processors are what each is told that obeys, or fronts of that
/// where the run was stopped, and the others were told nothing.
fn obey<R: Abort>(rt: &R, obeyed: &Obeyed, watch: &[Meeting], stopped: bool) -> Result<(), Fail> {
    let mut own = 0u32;
    for told in watch {
        let events = told.events.as_slice();
        if own < 3 {
            let fine = obeys(
                &obeyed.shape,
                &obeyed.code,
                &obeyed.plan,
                obeyed.limits,
                own,
                events,
                stopped,
            );
            assert!(rt; fine, "processor {own}");
        } else {
            assert!(rt; events.is_empty(), "watcher {own}");
        }
        own = own.saturating_add(1);
    }
    Ok(())
}

/// Limits of which the looks alone are met.
const FEW_LOOKS: Limits = Limits {
    turns: 1_000_000,
    looks: 2,
    seed: 7,
    idle: Idle::Park,
};

/// The words for a run of three processors by these.
fn words_of_three<'a>(takeover: &'a str, idle: &'a str, faults: &'a str) -> [&'a str; 18] {
    [
        "ppm",
        "run",
        "--processors",
        "3",
        "--room=256",
        "--slots=16",
        "--turns",
        "1000000",
        "--looks",
        "2",
        "--seed",
        "7",
        "--takeover",
        takeover,
        "--idle",
        idle,
        "--faults",
        faults,
    ]
}

#[test]
fn three_are_told_of_what_they_do(rt: HostRuntime) -> Result<(), Fail> {
    let alloc = rt.alloc();
    let unmet = AtomicU64::new(0);
    for takeover in ["place", "entry"] {
        for (idle, word) in [(Idle::Leave, "leave"), (Idle::Park, "park")] {
            for faults in ["none", "1@30h", "0@5s,2@12h,0@40s"] {
                let limits = Limits { idle, ..FEW_LOOKS };
                let obeyed = sum_on_three(&rt, alloc, takeover, faults, limits)?;
                let mut watch = watchers(alloc, &unmet, &unmet, 0, 1_000_000)?;
                let words = words_of_three(takeover, word, faults);
                let shown = call(&rt, alloc, &words, SUM, &mut watch)?;
                assert_eq!(&rt; shown.status, Status::Ended, "{words:?}");
                assert_eq!(&rt;
                    shown.out.as_slice(),
                    b"a 10 2 7 4\n".as_slice(),
                    "{words:?}"
                );
                obey(&rt, &obeyed, &watch, false)?;
                let keeper = watch.first().ok_or("a first")?;
                assert_eq!(&rt; parkings(keeper.events.as_slice()), 0, "{words:?}");
            }
        }
    }
    Ok(())
}

#[test]
fn one_that_refuses_ends_the_run(rt: HostRuntime) -> Result<(), Fail> {
    let alloc = rt.alloc();
    let unmet = AtomicU64::new(0);
    for takeover in ["place", "entry"] {
        let obeyed = sum_on_three(&rt, alloc, takeover, "none", FEW_LOOKS)?;
        for room in [0usize, 1, 2, 7, 30] {
            let mut watch = watchers(alloc, &unmet, &unmet, 0, room)?;
            let words = words_of_three(takeover, "park", "none");
            let shown = call(&rt, alloc, &words, SUM, &mut watch)?;
            assert_eq!(&rt; shown.status, Status::NoMemory, "{room}");
            assert_eq!(&rt; shown.out.as_slice(), b"".as_slice(), "{room}");
            assert_eq!(&rt;
                shown.err.as_slice(),
                b"out of memory\n".as_slice(),
                "{room}"
            );
            let refused = watch.first().ok_or("a first")?;
            assert_eq!(&rt; refused.events.len(), room);
            obey(&rt, &obeyed, &watch, true)?;
        }
    }
    Ok(())
}

/// How often two watchers meet.
const MEETINGS: u64 = 16;

#[test]
fn two_meet(rt: HostRuntime) -> Result<(), Fail> {
    let alloc = rt.alloc();
    let first = AtomicU64::new(0);
    let second = AtomicU64::new(0);
    let mut watch = watchers(alloc, &first, &second, MEETINGS, 1_000_000)?;
    let words = ["ppm", "run", "--processors", "2"];
    let shown = call(&rt, alloc, &words, SUM, &mut watch)?;
    assert_eq!(&rt; shown.status, Status::Ended);
    assert_eq!(&rt; shown.out.as_slice(), b"a 10 2 7 4\n".as_slice());
    assert_eq!(&rt; first.load(Ordering::SeqCst), MEETINGS);
    assert_eq!(&rt; second.load(Ordering::SeqCst), MEETINGS);
    Ok(())
}
