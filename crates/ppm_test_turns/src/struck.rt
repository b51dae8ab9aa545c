//! Sweeps of a small listing: a fault before each act of its run, or before drawn ones.
use crate::machines::machine_of;
use ppm_plan::read_schedule;
use ppm_sweep::{
    Draws, Stop, Sweeping, Tally, Window, each_act_is_struck, schedules_are_written, sweep,
    sweeps_are_fair, write_schedule,
};
use ppm_words::{Outcome, Trap};
use std::alloc::Global;
use std::test::Fail;

/// A strand that traps at its only addition, in line 2.
const TRAPS: &str = "ppm 1\nroot 0 0\nproc 0 slots 1 entry 0\n\
capsule 0 proc 0\nconst r1 9223372036854775807\nconst r2 1\nadd r1 r1 r2 2\nend\n";

/// One fault in each run, before the acts of a window, on one processor.
fn sweeping(from: u64, acts: u64, drawn: Option<Draws>) -> Sweeping {
    Sweeping {
        keeper: 0,
        turns: 1000,
        faults: 1,
        window: Window { from, acts },
        drawn,
    }
}

/// What a sweep over a schedule finds, where a trap in this line is wanted: its counts, or the text of the schedule
/// whose run came to something else.
fn found(
    alloc: Global,
    schedule: &[u8],
    sweeping: Sweeping,
    line: u32,
) -> Result<Result<Tally, Vec<u8>>, Fail> {
    let machine = machine_of(alloc, TRAPS, 1, 4, false)?;
    let schedule = read_schedule(alloc, schedule, 1).map_err(|_| "no schedule")?;
    if machine.processors() != 1 || machine.turns() != 0 {
        return Err("another machine")?;
    }
    if sweeping.turns > 1000 {
        return Err("more acts")?;
    }
    match sweep(
        alloc,
        &machine,
        &schedule,
        sweeping,
        &Outcome::Trapped(Trap::Overflow, line),
    ) {
        Ok(tally) => Ok(Ok(tally)),
        Err(Stop::Differs(differing)) => {
            let text = write_schedule(alloc, &differing.items).map_err(|_| "memory")?;
            Ok(Err(text))
        }
        Err(Stop::NoMemory) => Err("memory")?,
    }
}

/// What a sweep counts whose runs all trap in line 2.
fn counted(alloc: Global, schedule: &[u8], sweeping: Sweeping) -> Result<Tally, Fail> {
    match found(alloc, schedule, sweeping, 2)? {
        Ok(tally) => Ok(tally),
        Err(_) => Err("a run came to something else")?,
    }
}

#[test]
fn each_act_is_struck_once(rt: HostRuntime) -> Result<(), Fail> {
    let alloc = rt.alloc();
    sweeps_are_fair();
    schedules_are_written();
    each_act_is_struck();
    let tally = counted(alloc, b"none", sweeping(0, 1000, None))?;
    // The base run, and one with a soft fault before each of its acts.
    assert_eq!(rt; tally.runs, tally.met.saturating_add(1));
    assert_eq!(rt; tally.met, 10);
    assert_eq!(rt; tally.left, 0);
    match found(alloc, b"none", sweeping(0, 1000, None), 3)? {
        Ok(_) => return Err("no run came to something else")?,
        Err(text) => assert_eq!(rt; text.as_slice(), b"none".as_slice()),
    }
    Ok(())
}

/// Words 0 to 5 of Xoshiro256++, seeded by `seed_from_u64(1)`, modulo 4.
const WORDS: [u64; 6] = [3, 1, 0, 2, 0, 1];

/// The acts of the base run, and how many more are made by a run with a fault before the act with a number.
fn acts_struck(alloc: Global, number: u64, base: u64) -> Result<u64, Fail> {
    let tally = counted(alloc, b"none", sweeping(number, 1, None))?;
    Ok(tally.acts.saturating_sub(base))
}

#[test]
fn drawn_acts_are_struck(rt: HostRuntime) -> Result<(), Fail> {
    let alloc = rt.alloc();
    let draws = Some(Draws { runs: 6, seed: 1 });
    // Nothing is drawn, since the base run makes 10 acts.
    let base = counted(alloc, b"none", sweeping(10, 4, draws))?;
    assert_eq!(rt; base.runs, 1);
    let mut acts = base.acts;
    for word in WORDS {
        acts = acts.saturating_add(acts_struck(alloc, word.saturating_add(3), base.acts)?);
    }
    let tally = counted(alloc, b"none", sweeping(3, 4, draws))?;
    assert_eq!(rt; tally.runs, 7);
    assert_eq!(rt; tally.met, 6);
    assert_eq!(rt; tally.acts, acts);
    Ok(())
}

/// As many items as a schedule may have, none of which joins the next.
fn longest(alloc: Global) -> Result<Vec<u8>, Fail> {
    let mut text = Vec::new(alloc);
    text.extend_from_slice(b"0")?;
    for _ in 0..2047 {
        text.extend_from_slice(b",0>0,0")?;
    }
    text.extend_from_slice(b",0>0")?;
    Ok(text)
}

#[test]
fn long_schedules_are_left_out(rt: HostRuntime) -> Result<(), Fail> {
    let alloc = rt.alloc();
    let text = longest(alloc)?;
    let tally = counted(alloc, &text, sweeping(2, 5, None))?;
    assert_eq!(rt; tally.runs, 1);
    assert_eq!(rt; tally.met, 0);
    assert_eq!(rt; tally.left, 5);
    Ok(())
}
