//! Watchers that refuse, at each of their turns in turn.
use crate::bounded::Bounded;
use crate::obeying::obeys;
use crate::tables::{WIDE, fork_code, fork_shape, is_right, plan_of, run};
use ppm_choice::{Idle, Limits};
use std::alloc::Global;
use std::process::Abort;
use std::test::Fail;

/// A watcher for each bound.
fn with_bounds(alloc: Global, bounds: &[u32]) -> Result<Vec<Bounded>, Fail> {
    let mut all = Vec::new(alloc);
    for left in bounds {
        all.push(Bounded::new(alloc, *left))?;
    }
    Ok(all)
}

/// How many events a watcher keeps.
fn kept(watch: &[Bounded], number: usize) -> Option<usize> {
    match watch.get(number) {
        Some(one) => Some(one.events.len()),
        None => None,
    }
}

/// Fails unless each list is a front of what a processor is told that obeys.
fn are_fronts<R: Abort>(
    rt: &R,
    alloc: Global,
    limits: Limits,
    watch: &[Bounded],
) -> Result<(), Fail> {
    let code = fork_code(alloc)?;
    let shape = fork_shape(3)?;
    let plan = plan_of(alloc, "none", 3)?;
    for own in 0..3u32 {
        let told = watch.get(own as usize).ok_or("a watcher")?;
        let fine = obeys(
            &shape,
            &code,
            &plan,
            limits,
            own,
            told.events.as_slice(),
            true,
        );
        assert!(rt; fine, "processor {own}");
    }
    Ok(())
}

#[test]
fn one_is_refused_each_event(rt: HostRuntime) -> Result<(), Fail> {
    let alloc = rt.alloc();
    let mut full = with_bounds(alloc, &[1_000_000])?;
    let closed = run(&rt, alloc, "none", WIDE, 1, &mut full)?.ok_or("no memory")?;
    assert!(&rt; is_right(alloc, &closed)?);
    let all = full.first().ok_or("a watcher")?;
    let mut left = 0u32;
    for _ in 0..all.events.len() {
        let mut watch = with_bounds(alloc, &[left])?;
        let answer = run(&rt, alloc, "none", WIDE, 1, &mut watch)?;
        assert!(&rt; answer.is_none(), "the event behind {left}");
        // What it took stays.
        let told = watch.first().ok_or("a watcher")?;
        assert_eq!(&rt; told.events.len(), left as usize);
        assert!(&rt;
            all.events.as_slice().starts_with(told.events.as_slice()),
            "{left}"
        );
        left = left.saturating_add(1);
    }
    assert!(&rt; left > 50);
    let mut watch = with_bounds(alloc, &[left])?;
    let closed = run(&rt, alloc, "none", WIDE, 1, &mut watch)?.ok_or("refused")?;
    assert!(&rt; is_right(alloc, &closed)?);
    Ok(())
}

#[test]
fn one_of_three_is_refused(rt: HostRuntime) -> Result<(), Fail> {
    let alloc = rt.alloc();
    // The third event of one that parks is that it does.
    for idle in [Idle::Leave, Idle::Park] {
        let limits = Limits {
            looks: 1,
            idle,
            ..WIDE
        };
        for left in 0..3u32 {
            let mut watch = with_bounds(alloc, &[1_000_000, left, 1_000_000, 0])?;
            let answer = run(&rt, alloc, "none", limits, 3, &mut watch)?;
            // One that leaves makes two acts.
            let refused = left < 2 || matches!(idle, Idle::Park);
            assert_eq!(&rt; answer.is_none(), refused, "{left}");
            assert_eq!(&rt; kept(&watch, 1), Some(left.min(2) as usize), "{left}");
            assert_eq!(&rt; kept(&watch, 3), Some(0), "{left}");
            are_fronts(&rt, alloc, limits, &watch)?;
        }
        for left in 0..15u32 {
            let mut watch = with_bounds(alloc, &[left, 1_000_000, 1_000_000])?;
            let answer = run(&rt, alloc, "none", limits, 3, &mut watch)?;
            assert!(&rt; answer.is_none(), "{left}");
            assert_eq!(&rt; kept(&watch, 0), Some(left as usize), "{left}");
            are_fronts(&rt, alloc, limits, &watch)?;
        }
    }
    Ok(())
}
