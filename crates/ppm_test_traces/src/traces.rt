//! A trace tells what the replay of its schedule comes to, and what that counts.
use crate::calls::shown;
use crate::lines::{Told, words_of};
use std::alloc::Global;
use std::process::Abort;
use std::sync::Wait;
use std::test::Fail;
use std::thread::Threads;

/// A source, and the lines of its arrays before its first act.
#[derive(Clone, Copy)]
struct Program {
    source: &'static str,
    arrays: &'static str,
}

/// The example of one fork.
const FORK: Program = Program {
    source: "array a[1]; array b[1];\nproc f(mut x) { x[0] = 1; }\n\
proc main(mut a, mut b) { fork f(a) and f(b); }\n",
    arrays: "a 0\nb 0\n",
};

/// Both branches store into their halves, more than once, and the values have signs.
const HALVES: Program = Program {
    source: "array a[4]; input a = 5, -6, 7, 0; array c[2];\n\
proc half(mut x, int by) { x[0] = x[0] * by; x[1] = x[0] - x[1]; x[0] = x[1] + 1; }\n\
proc main(mut a, mut c) { split a at 2 into l, r { fork half(l, 3) and half(r, -2); c[1] = l[0] - r[1]; } }\n",
    arrays: "a 5 -6 7 0\nc 0 0\n",
};

/// A sum by halves: forks within both branches of a fork.
const SUM: Program = Program {
    source: "array a[4]; input a = 1, 2, 3, 4;\nproc sum(mut a) { if len a > 1 { split a at len a / 2 into l, r { \
fork sum(l) and sum(r); l[0] = l[0] + r[0]; } } }\nproc main(mut a) { call sum(a); }\n",
    arrays: "a 1 2 3 4\n",
};

/// A schedule, and how many faults it makes.
#[derive(Clone, Copy)]
struct Row {
    processors: &'static str,
    schedule: &'static str,
    soft: u32,
    hard: u32,
}

/// Schedules under which a thief steals and lives, and under which it dies and another processor
/// takes over its place, with soft faults of more than one processor; one under which the first
/// processor dies, and one without faults.
const ROWS: [Row; 4] = [
    Row {
        processors: "3",
        schedule: "none",
        soft: 0,
        hard: 0,
    },
    Row {
        processors: "2",
        schedule: "0*30,1*12,1!h",
        soft: 0,
        hard: 1,
    },
    Row {
        processors: "3",
        schedule: "0*30,1*20,0!s,1!s,0*11,1*9,1!s,2*40,0!s",
        soft: 4,
        hard: 0,
    },
    Row {
        processors: "3",
        schedule: "0*35,0!s,2*31,2!s,0!h,1*60,1!s,2*17",
        soft: 3,
        hard: 1,
    },
];

/// Fails unless a text has a part.
fn has<R: Abort>(rt: &R, text: &str, part: &str, row: Row) -> Result<(), Fail> {
    let found = text.find(part).is_some();
    assert!(rt; found, "{}: no {part}", row.schedule);
    Ok(())
}

/// Fails unless the lines leave the arrays that the replay prints.
fn has_arrays<R: Abort>(
    rt: &R,
    alloc: Global,
    told: &Told,
    replay: &str,
    row: Row,
) -> Result<(), Fail> {
    let wanted = words_of(alloc, replay)?;
    let same = told.words.as_slice() == wanted.as_slice();
    assert!(rt; same, "{}", row.schedule);
    Ok(())
}

/// Fails unless there are as many takes as forks, and as many faults as the row says.
fn has_marks<R: Abort>(rt: &R, told: &Told, row: Row) -> Result<(), Fail> {
    let paired = told.takes == told.forks;
    let struck = told.soft == row.soft && told.hard == row.hard;
    assert!(rt; paired, "{}", row.schedule);
    assert!(rt; struck, "{}", row.schedule);
    Ok(())
}

/// The end of what `replay` prints, and a part of what it prints with counts.
fn counts_of(alloc: Global, told: &Told) -> Result<(String, String), Fail> {
    let (forks, takes) = (told.forks, told.takes);
    let (thefts, takeovers) = (told.thefts, told.takeovers);
    let end = format!(in alloc; "forks {forks} takes {takes}\n")?;
    let part = format!(in alloc;
        " forks {forks} takes {takes} stolen {thefts} takeovers {takeovers} "
    )?;
    Ok((end, part))
}

/// The words of a command that follows a schedule.
fn command(alloc: Global, front: &str, takeover: &str, row: Row) -> Result<String, Fail> {
    let mut words = String::from_str(alloc, front)?;
    words.push_str(" --room 256 --slots 8 --takeover ")?;
    words.push_str(takeover)?;
    words.push_str(" --processors ")?;
    words.push_str(row.processors)?;
    words.push_str(" --schedule ")?;
    words.push_str(row.schedule)?;
    Ok(words)
}

/// What the trace of a program by a schedule tells. Fails unless this is, of its array words, what the
/// replay prints; of forks, takes, thefts and takeovers, what the replay counts, with as many takes
/// as forks; and as many faults as the row says.
fn told_of<R: Abort + Threads + Wait + Sync>(
    rt: &R,
    alloc: Global,
    program: Program,
    takeover: &str,
    row: Row,
) -> Result<Told, Fail> {
    let tracing = command(alloc, "trace", takeover, row)?;
    let trace = shown(rt, alloc, &tracing, program.source)?;
    let replaying = command(alloc, "replay", takeover, row)?;
    let replay = shown(rt, alloc, &replaying, program.source)?;
    let counting = command(alloc, "replay --counts yes", takeover, row)?;
    let counted = shown(rt, alloc, &counting, program.source)?;
    let mut told = Told::first(alloc, program.arrays)?;
    told.read(alloc, &trace)?;
    has_arrays(rt, alloc, &told, &replay, row)?;
    has_marks(rt, &told, row)?;
    let (end, part) = counts_of(alloc, &told)?;
    has(rt, &replay, &end, row)?;
    has(rt, &counted, &part, row)?;
    Ok(told)
}

#[test]
fn lines_tell_what_a_replay_comes_to(rt: HostRuntime) -> Result<(), Fail> {
    let alloc = rt.alloc();
    for program in [FORK, HALVES, SUM] {
        for row in ROWS {
            let by_places = told_of(&rt, alloc, program, "place", row)?;
            assert!(&rt; by_places.forks > 0);
            let by_entries = told_of(&rt, alloc, program, "entry", row)?;
            assert!(&rt; by_entries.forks > 0);
        }
    }
    Ok(())
}

/// How many processors there are, a schedule without soft faults, and how many hard faults, thefts and
/// takeovers it makes.
const BRANCHES: [(&'static str, &'static str, u32, u32, u32); 4] = [
    // The fork's right branch is in the deque after act 29, and processor 1 steals it.
    ("2", "0*30,1*40", 0, 1, 0),
    // Processor 0 dies before it finds work; processor 1, whose place has the root, is alone.
    ("2", "0*2,0!h", 1, 0, 0),
    // Processor 1 dies as it looks for work. Processor 2 takes over its place, and steals nothing.
    ("3", "0*28,1*5,1!h,0*30,2>1*40", 1, 0, 1),
    // Processor 1 dies as it steals, and processor 0 goes on with the theft at its place.
    ("2", "0*30,1*12,1!h", 1, 1, 1),
];

#[test]
fn thefts_and_takeovers_are_told_apart(rt: HostRuntime) -> Result<(), Fail> {
    let alloc = rt.alloc();
    for (processors, schedule, hard, thefts, takeovers) in BRANCHES {
        let row = Row {
            processors,
            schedule,
            soft: 0,
            hard,
        };
        let told = told_of(&rt, alloc, FORK, "place", row)?;
        assert_eq!(&rt; told.forks, 1, "{schedule}");
        assert_eq!(&rt; told.thefts, thefts, "{schedule}");
        assert_eq!(&rt; told.takeovers, takeovers, "{schedule}");
    }
    Ok(())
}
