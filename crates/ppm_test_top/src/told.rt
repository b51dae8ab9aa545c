//! What watchers are told where words are resumed: exactly what one processor does alone, of several
//! what they are told that obey; and how one that refuses ends the run.
use crate::calls::{Shown, call_over};
use crate::sources::{FIRST, SUM};
use crate::texts::{changed, stopped};
use ppm_answers::Status;
use ppm_choice::{Idle, Limits};
use ppm_core::Machine;
use ppm_plan::read_plan;
use ppm_saved::{Renewed, renew};
use ppm_saved_reader::read_saved;
use ppm_test_threads::{Bounded, obeys, record};
use ppm_top::WATCHERS;
use ppm_words::Event;
use std::alloc::Global;
use std::process::Abort;
use std::sync::Wait;
use std::test::Fail;
use std::thread::Threads;

/// More events than any watcher is told here.
const MANY: u32 = 1_000_000;

/// The limits by which all are resumed here, but for the turns: a processor that seeks twice leaves.
pub(crate) const FEW_LOOKS: Limits = Limits {
    turns: 1_000_000,
    looks: 2,
    seed: 7,
    idle: Idle::Leave,
};

/// Watchers for a call, of which the first keeps so many events and refuses the next one.
pub(crate) fn watchers(alloc: Global, room: u32) -> Result<Vec<Bounded>, Fail> {
    let mut all = Vec::new(alloc);
    all.push(Bounded::new(alloc, room))?;
    for _ in 1..WATCHERS {
        all.push(Bounded::new(alloc, MANY))?;
    }
    Ok(all)
}

/// How a text is resumed: within so many turns, by a plan of faults.
#[derive(Clone, Copy)]
pub(crate) struct Way {
    pub(crate) turns: u64,
    pub(crate) faults: &'static str,
}

/// Within more turns than are made here, and without faults.
pub(crate) const PLAIN: Way = Way {
    turns: 1_000_000,
    faults: "none",
};

/// A text is resumed so, with these watchers.
fn resumed<R: Threads + Wait + Sync>(
    rt: &R,
    alloc: Global,
    text: &[u8],
    way: Way,
    watch: &mut Vec<Bounded>,
) -> Result<Shown, Fail> {
    let turns = format!(in alloc; "{}", way.turns)?;
    let words = [
        "ppm", "resume", "--turns", &turns, "--looks", "2", "--seed", "7", "--faults", way.faults,
    ];
    call_over(rt, alloc, &words, text, watch)
}

/// What the only processor of a text's state does alone where it goes on so.
fn alone(alloc: Global, text: &[u8], way: Way) -> Result<Vec<Event>, Fail> {
    let saved = read_saved(alloc, text).map_err(|_| "no state")?;
    let plan = read_plan(alloc, way.faults.as_bytes(), 1).map_err(|_| "no plan")?;
    let Renewed { image, code, names } = renew(saved, 0);
    let _ = names;
    let mut machine = Machine::load(alloc, image, code).map_err(|_| "memory")?;
    let limits = Limits {
        turns: way.turns,
        ..FEW_LOOKS
    };
    Ok(record(alloc, &mut machine, &plan, limits).map_err(|_| "memory")?)
}

/// Fails where a watcher from a number on was told anything.
pub(crate) fn are_silent<R: Abort>(rt: &R, watch: &[Bounded], from: u32) -> Result<(), Fail> {
    let mut own = 0u32;
    for told in watch {
        let silent = own < from || told.events.is_empty();
        assert!(rt; silent, "watcher {own}");
        own = own.saturating_add(1);
    }
    Ok(())
}

/// Fails unless a call answered so: on out where it ends, at its end or in a trap, else on err.
pub(crate) fn is_shown<R: Abort>(
    rt: &R,
    shown: &Shown,
    answer: &str,
    status: Status,
) -> Result<(), Fail> {
    let (out, err) = match status {
        Status::Ended | Status::Trapped => (answer, ""),
        _ => ("", answer),
    };
    assert_eq!(rt; shown.out.as_slice(), out.as_bytes(), "{answer}");
    assert_eq!(rt; shown.err.as_slice(), err.as_bytes(), "{answer}");
    assert_eq!(rt; shown.status, status, "{answer}");
    Ok(())
}

/// Fails unless a text of one processor is resumed so with this answer, and its watcher is told
/// exactly what that processor does alone, the others nothing.
pub(crate) fn is_run_alone<R: Abort + Threads + Wait + Sync>(
    rt: &R,
    alloc: Global,
    text: &[u8],
    way: Way,
    answer: &str,
    status: Status,
) -> Result<(), Fail> {
    let mut watch = watchers(alloc, MANY)?;
    let shown = resumed(rt, alloc, text, way, &mut watch)?;
    is_shown(rt, &shown, answer, status)?;
    let want = alone(alloc, text, way)?;
    let only = watch.first().ok_or("a first")?;
    assert!(rt; only.events.as_slice() == want.as_slice(), "{answer}");
    assert!(rt; !want.is_empty(), "{answer}");
    are_silent(rt, &watch, 1)
}

/// Fails unless each list is what that processor of a text's state is told which obeys a plan, or a
/// front of it where the run was stopped; and all that are not of the state were told nothing.
fn obey<R: Abort>(
    rt: &R,
    alloc: Global,
    text: &[u8],
    faults: &str,
    watch: &[Bounded],
    stopped: bool,
) -> Result<(), Fail> {
    let saved = read_saved(alloc, text).map_err(|_| "no state")?;
    let processors = saved.shape.processors;
    let plan = read_plan(alloc, faults.as_bytes(), processors).map_err(|_| "no plan")?;
    let mut own = 0u32;
    for told in watch {
        let events = told.events.as_slice();
        if own < processors {
            let fine = obeys(
                &saved.shape,
                &saved.code,
                &plan,
                FEW_LOOKS,
                own,
                events,
                stopped,
            );
            assert!(rt; fine, "processor {own}");
        }
        own = own.saturating_add(1);
    }
    are_silent(rt, watch, processors)
}

/// Fails unless a text is resumed by this plan with this answer, and its processors are told what they
/// are told that obey.
pub(crate) fn is_run<R: Abort + Threads + Wait + Sync>(
    rt: &R,
    alloc: Global,
    text: &[u8],
    faults: &'static str,
    answer: &str,
    status: Status,
) -> Result<(), Fail> {
    let mut watch = watchers(alloc, MANY)?;
    let shown = resumed(rt, alloc, text, Way { faults, ..PLAIN }, &mut watch)?;
    is_shown(rt, &shown, answer, status)?;
    obey(rt, alloc, text, faults, &watch, false)
}

/// The plans by which three go on.
const PLANS: [&'static str; 4] = ["none", "1@30h", "0@5s,1@9h", "0@5s,2@12h,0@40s"];

/// A line of the text of one processor, what stands there in its place, and what is answered.
const ENDS: [(u32, &str, &str, Status); 9] = [
    (0, "", "a 7\n", Status::Ended),
    // The finish word: it had ended, in a trap, out of turns, out of room, stopped or broken.
    (11, "1\n0*2", "a 7\n", Status::Ended),
    (11, "90\n0*2", "trap index line 1\n", Status::Trapped),
    (11, "3\n0*2", "a 7\n", Status::Ended),
    (11, "4\n0*2", "out of room: place 0\n", Status::OutOfRoom),
    (11, "6\n0*2", "a 7\n", Status::Ended),
    (
        11,
        "71\n0*2",
        "saved words broken: place 0\n",
        Status::Broken,
    ),
    // A restart word that stands for nothing, and the outcome of the root, which is a trap.
    (12, "1", "saved words broken: place 0\n", Status::Broken),
    (19, "90", "trap index line 1\n", Status::Trapped),
];

#[test]
fn one_is_told_what_it_does_to_each_end(rt: HostRuntime) -> Result<(), Fail> {
    let alloc = rt.alloc();
    for (at, with, answer, status) in ENDS {
        let text = changed(alloc, at, with)?;
        is_run_alone(&rt, alloc, &text, PLAIN, answer, status)?;
    }
    Ok(())
}

/// With soft faults of processor 0 here and there.
const FAULTS: Way = Way {
    turns: 1_000_000,
    faults: "0@0s,0@1s,0@3s,0@7s,0@20s",
};

#[test]
fn one_is_told_what_it_does_through_faults(rt: HostRuntime) -> Result<(), Fail> {
    let alloc = rt.alloc();
    for after in ["0", "77", "100000"] {
        let text = stopped(&rt, alloc, SUM, "1", "256", after)?;
        is_run_alone(&rt, alloc, &text, FAULTS, "a 10 2 7 4\n", Status::Ended)?;
    }
    Ok(())
}

#[test]
fn one_is_told_what_it_does_until_turns_are_out(rt: HostRuntime) -> Result<(), Fail> {
    let alloc = rt.alloc();
    let way = Way {
        turns: 50,
        faults: "0@0s,0@9s",
    };
    let text = stopped(&rt, alloc, SUM, "1", "256", "77")?;
    let answer = "out of turns: processor 0\n";
    is_run_alone(&rt, alloc, &text, way, answer, Status::OutOfTurns)
}

#[test]
fn three_are_told_of_what_they_do(rt: HostRuntime) -> Result<(), Fail> {
    let alloc = rt.alloc();
    for after in ["0", "1", "9", "60", "133", "250", "400"] {
        let text = stopped(&rt, alloc, SUM, "3", "256", after)?;
        for faults in PLANS {
            is_run(&rt, alloc, &text, faults, "a 10 2 7 4\n", Status::Ended)?;
        }
    }
    Ok(())
}

#[test]
fn one_that_refuses_ends_what_is_resumed(rt: HostRuntime) -> Result<(), Fail> {
    let alloc = rt.alloc();
    for after in ["0", "133"] {
        let text = stopped(&rt, alloc, SUM, "3", "256", after)?;
        for room in [0u32, 1, 2, 7, 30] {
            let mut watch = watchers(alloc, room)?;
            let shown = resumed(&rt, alloc, &text, PLAIN, &mut watch)?;
            is_shown(&rt, &shown, "out of memory\n", Status::NoMemory)?;
            let refused = watch.first().ok_or("a first")?;
            assert_eq!(&rt; refused.events.len(), room as usize);
            obey(&rt, alloc, &text, "none", &watch, true)?;
        }
    }
    Ok(())
}

#[test]
fn each_event_of_one_is_refused(rt: HostRuntime) -> Result<(), Fail> {
    let alloc = rt.alloc();
    let text = stopped(&rt, alloc, FIRST, "1", "64", "20")?;
    let all = alone(alloc, &text, PLAIN)?;
    let mut room = 0u32;
    for _ in 0..all.len() {
        let mut watch = watchers(alloc, room)?;
        let shown = resumed(&rt, alloc, &text, PLAIN, &mut watch)?;
        is_shown(&rt, &shown, "out of memory\n", Status::NoMemory)?;
        let only = watch.first().ok_or("a first")?;
        assert_eq!(&rt; only.events.len(), room as usize);
        assert!(&rt; all.starts_with(only.events.as_slice()), "{room}");
        are_silent(&rt, &watch, 1)?;
        room = room.saturating_add(1);
    }
    is_run_alone(&rt, alloc, &text, PLAIN, "a 5 7\n", Status::Ended)
}
