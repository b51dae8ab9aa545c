//! What is counted of the acts of threads.
use crate::alone::record;
use crate::tables::{WIDE, counted_run, fork_machine, plan_of};
use ppm_table::act_counts_tell_turns;
use std::test::Fail;

#[test]
fn one_counts_what_a_machine_counts(rt: HostRuntime) -> Result<(), Fail> {
    // The counts of a run are those of its turns, by this law; the call does nothing.
    act_counts_tell_turns();
    let alloc = rt.alloc();
    for (faults, soft) in [("none", 0u64), ("0@0s,0@3s", 2), ("0@20s,0@21s,0@40s", 3)] {
        let plan = plan_of(alloc, faults, 1)?;
        let mut machine = fork_machine(alloc)?;
        let events = record(alloc, &mut machine, &plan, WIDE)?;
        let counts = counted_run(&rt, alloc, faults, 1)?;
        assert!(&rt; counts.acts == events.len() as u64, "{faults}");
        assert!(&rt; counts.work == machine.work(), "{faults}");
        assert!(&rt; counts.forks == 1 && counts.takes == 1, "{faults}");
        assert!(&rt; counts.stolen == 0 && counts.takeovers == 0, "{faults}");
        assert!(&rt; counts.soft == soft && counts.hard == 0, "{faults}");
    }
    Ok(())
}

#[test]
fn several_count_together(rt: HostRuntime) -> Result<(), Fail> {
    let alloc = rt.alloc();
    for (processors, faults, soft, hard) in [
        (2u32, "none", 0u64, 0u64),
        (2, "1@0h", 0, 1),
        (3, "0@0s,1@0h,2@0h", 1, 2),
    ] {
        let counts = counted_run(&rt, alloc, faults, processors)?;
        assert!(&rt; counts.forks == 1 && counts.takes == 1, "{faults}");
        assert!(&rt; counts.soft == soft && counts.hard == hard, "{faults}");
        assert!(&rt; counts.stolen <= 1, "{faults}");
        assert!(&rt; counts.work > 30 && counts.acts > counts.work, "{faults}");
    }
    Ok(())
}

#[test]
fn who_lives_takes_over_and_steals_nothing(rt: HostRuntime) -> Result<(), Fail> {
    let alloc = rt.alloc();
    // Processor 0 dies before its fork, so the other one makes that at the place which it takes over,
    // and nobody is left who could steal.
    for faults in ["0@2h", "0@0h", "0@9h,1@0s"] {
        let counts = counted_run(&rt, alloc, faults, 2)?;
        assert!(&rt; counts.takeovers == 1 && counts.stolen == 0, "{faults}");
        assert!(&rt; counts.forks == 1 && counts.takes == 1, "{faults}");
        assert!(&rt; counts.hard == 1, "{faults}");
    }
    Ok(())
}
