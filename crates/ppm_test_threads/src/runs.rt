//! Runs whose watchers refuse nothing: what they are told, and what the words are after the run.
use crate::alone::record;
use crate::obeying::obeys;
use crate::tables::{
    LOOP, WIDE, ZEROS, fork_code, fork_machine, fork_shape, is_right, plan_of, recorders, run,
    run_listing,
};
use ppm_cells::{Ending, Finish};
use ppm_choice::{Idle, Limits};
use ppm_core::Machine;
use ppm_ports::Recorder;
use ppm_table::Closed;
use std::alloc::Global;
use std::process::Abort;
use std::sync::Wait;
use std::test::Fail;
use std::thread::Threads;

/// Whether these are the words of a machine.
fn are_words_of(closed: &Closed, machine: &Machine) -> bool {
    let count = closed.word_count();
    if machine.words().len() != count as usize {
        return false;
    }
    for at in 0..count {
        if machine.words().get(at as usize).copied() != Some(closed.word(at)) {
            return false;
        }
    }
    true
}

#[test]
fn one_does_what_it_does_on_a_machine(rt: HostRuntime) -> Result<(), Fail> {
    let alloc = rt.alloc();
    for faults in ["none", "0@0s,0@3s", "0@20s,0@21s,0@40s"] {
        let plan = plan_of(alloc, faults, 1)?;
        let mut machine = fork_machine(alloc)?;
        let want = record(alloc, &mut machine, &plan, WIDE)?;
        let mut watch = recorders(alloc, 1)?;
        let closed = run(&rt, alloc, faults, WIDE, 1, &mut watch)?.ok_or("no memory")?;
        assert!(&rt; is_right(alloc, &closed)?, "{faults}");
        assert!(&rt; are_words_of(&closed, &machine), "{faults}");
        let told = watch.first().ok_or("a watcher")?;
        assert!(&rt; told.events() == want.as_slice(), "{faults}");
        assert!(&rt; want.len() > 50, "{faults}");
    }
    Ok(())
}

#[test]
fn each_capsule_begins_with_registers_of_0(rt: HostRuntime) -> Result<(), Fail> {
    let alloc = rt.alloc();
    let mut watch = recorders(alloc, 1)?;
    let closed = run_listing(&rt, alloc, ZEROS, "none", WIDE, 1, &mut watch)?.ok_or("no memory")?;
    assert!(&rt; closed.outcome() == Ending::With(Finish::Ended));
    assert_eq!(&rt; closed.arrays(), 1);
    let array = closed.array(alloc, 0)?;
    assert_eq!(&rt; array.as_slice(), [0, 0, 0, 0].as_slice());
    Ok(())
}

/// Fails unless each of so many processors obeys, by its list.
fn all_obey<R: Abort>(
    rt: &R,
    alloc: Global,
    faults: &str,
    limits: Limits,
    processors: u32,
    watch: &[Recorder],
) -> Result<(), Fail> {
    let code = fork_code(alloc)?;
    let shape = fork_shape(processors)?;
    let plan = plan_of(alloc, faults, processors)?;
    let mut own = 0;
    for told in watch {
        let fine = obeys(&shape, &code, &plan, limits, own, told.events(), false);
        assert!(rt; fine, "{faults}, processor {own}");
        own = own.saturating_add(1);
    }
    assert_eq!(rt; own, processors, "{faults}");
    Ok(())
}

/// Runs the listing on so many threads; fails unless it comes to what it is to, and each processor
/// obeys.
fn runs_right<R: Abort + Threads + Wait + Sync>(
    rt: &R,
    alloc: Global,
    faults: &str,
    limits: Limits,
    processors: u32,
) -> Result<Vec<Recorder>, Fail> {
    let mut watch = recorders(alloc, processors)?;
    let closed = run(rt, alloc, faults, limits, processors, &mut watch)?.ok_or("no memory")?;
    assert!(rt; is_right(alloc, &closed)?, "{faults}");
    all_obey(rt, alloc, faults, limits, processors, &watch)?;
    Ok(watch)
}

#[test]
fn several_obey(rt: HostRuntime) -> Result<(), Fail> {
    let alloc = rt.alloc();
    for (processors, faults) in [
        (2u32, "none"),
        (2, "0@5s,1@9s,1@40s"),
        (2, "1@0h"),
        (3, "1@30h,2@17h"),
        (3, "0@25h,2@3s"),
        (8, "0@60h,1@8h,5@70h"),
    ] {
        let _lists = runs_right(&rt, alloc, faults, WIDE, processors)?;
    }
    Ok(())
}

#[test]
fn sixty_four_end(rt: HostRuntime) -> Result<(), Fail> {
    let alloc = rt.alloc();
    let watch = runs_right(&rt, alloc, "3@0h,0@0s", WIDE, 64)?;
    let dead = watch.get(3).ok_or("a fourth")?;
    assert_eq!(&rt; dead.events().len(), 1);
    assert!(&rt; dead.events().first().is_some_and(|e| e.step == 5));
    let keeper = watch.first().ok_or("a first")?;
    assert!(&rt; keeper.events().first().is_some_and(|e| e.step == 4));
    // Its last act finds the finish word set.
    assert!(&rt;
        keeper
            .events()
            .last()
            .is_some_and(|e| e.step == 1 && e.word == 0 && e.value != 0)
    );
    Ok(())
}

/// With so few looks that a processor rests where it would first seek work.
const SHORT: Limits = Limits {
    turns: 1_000_000,
    looks: 1,
    seed: 1,
    idle: Idle::Park,
};

#[test]
fn three_park(rt: HostRuntime) -> Result<(), Fail> {
    let alloc = rt.alloc();
    for seed in 0..20u32 {
        let limits = Limits { seed, ..SHORT };
        let watch = runs_right(&rt, alloc, "none", limits, 3)?;
        let keeper = watch.first().ok_or("a first")?;
        assert!(&rt;
            !keeper.events().iter().any(|e| e.step == 7),
            "the keeper parks"
        );
        // A carry word, a restart word, and then it parks.
        for number in 1..3usize {
            let other = watch.get(number).ok_or("another")?;
            let parks = other.events().get(2).is_some_and(|e| e.step == 7);
            assert!(&rt; parks, "processor {number}");
        }
    }
    Ok(())
}

#[test]
fn two_of_three_leave(rt: HostRuntime) -> Result<(), Fail> {
    let alloc = rt.alloc();
    let limits = Limits {
        idle: Idle::Leave,
        ..SHORT
    };
    let watch = runs_right(&rt, alloc, "none", limits, 3)?;
    for number in 1..3usize {
        let other = watch.get(number).ok_or("another")?;
        assert_eq!(&rt; other.events().len(), 2, "processor {number}");
    }
    Ok(())
}

/// How many of these events say that a processor parks.
fn parkings(watch: &[Recorder], number: usize) -> Option<usize> {
    let told = watch.get(number)?;
    Some(told.events().iter().filter(|e| e.step == 7).count())
}

#[test]
fn one_parks_until_turns_are_spent(rt: HostRuntime) -> Result<(), Fail> {
    let alloc = rt.alloc();
    let limits = Limits {
        turns: 10_000,
        ..SHORT
    };
    let mut watch = recorders(alloc, 2)?;
    let closed = run_listing(&rt, alloc, LOOP, "none", limits, 2, &mut watch)?.ok_or("refused")?;
    assert!(&rt; closed.outcome() == Ending::With(Finish::OutOfTurns { processor: 0 }));
    assert_eq!(&rt; parkings(&watch, 0), Some(0));
    assert_eq!(&rt; parkings(&watch, 1), Some(1));
    // It wakes to one act, which finds the finish word set.
    let other = watch.get(1).ok_or("another")?;
    assert_eq!(&rt; other.events().len(), 4);
    Ok(())
}
