//! Cases whose strands race, read, and run by a schedule.
use ppm_depth::Finish;
use ppm_interleaving::{Change, Deed, Fallen};
use ppm_plan::read_strands;
use ppm_racy_case::{racy_faults_tell_cases, read_racy_case};
use ppm_strand_runs::{
    Draws, Fall, StrandRun, drawn_steps, falls_of_runs_refute, first_drawn_fall, run_strands,
    runs_are_one,
};
use std::alloc::Global;
use std::test::Fail;

/// One word, which is 0. The root forks two branches, of which one exchanges 0 for 1 in it, and one
/// exchanges 1 for 0.
const RETURNING: &str = "array a 1\nppm 1\nroot 0 0\nproc 0 slots 1 entry 0\n\
proc 1 slots 3 entry 2\ncapsule 0 proc 0\nroom 23\nloadslot r0 0\nconst r1 1\nconst r2 0\n\
storenew 11 r0\nstorenew 12 r2\nstorenew 13 r1\nstorenew 20 r0\nstorenew 21 r1\nstorenew 22 r2\n\
fork 1 1 1\ncapsule 1 proc 0\nend\ncapsule 2 proc 1\nloadslot r0 0\nconst r1 0\nloadslot r2 1\n\
loadslot r3 2\ncam r0 r1 r2 r3 1\nend\n";

/// The run of a schedule, of so many turns at most.
fn run(alloc: Global, schedule: &str, turns: u32) -> Result<StrandRun, Fail> {
    let case = read_racy_case(alloc, RETURNING.as_bytes()).map_err(|_| "no case")?;
    let items = read_strands(alloc, schedule.as_bytes()).map_err(|_| "no schedule")?;
    Ok(run_strands(
        alloc,
        &case.code,
        case.input.arrays(),
        &items,
        u64::from(turns),
    )?)
}

/// The exchange that strand 1 made in one turn does not stand once strand 2 has made its own in
/// another one.
fn falls_at(made: u64, turn: u64) -> Fall {
    Fall {
        fallen: Fallen {
            strand: 1,
            number: 0,
            change: Change::Exchanges {
                word: 0,
                old: 0,
                new: 1,
            },
        },
        made,
        turn,
        strand: 2,
        deed: Some(Deed::Changed {
            word: 0,
            was: 1,
            is: 0,
        }),
    }
}

#[test]
fn the_first_fall_of_a_schedule_is_told(rt: HostRuntime) -> Result<(), Fail> {
    let alloc = rt.alloc();
    let run = run(alloc, "0*8,1*4,2*4", 16)?;
    assert_eq!(rt; run.fall, Some(falls_at(12, 16)));
    assert_eq!(rt; run.machine.finish(), None);
    Ok(())
}

#[test]
fn a_branch_that_ends_before_does_not_fall(rt: HostRuntime) -> Result<(), Fail> {
    let alloc = rt.alloc();
    let run = run(alloc, "0*8,1*5,2*5", 1000)?;
    assert_eq!(rt; run.fall, None);
    assert_eq!(rt; run.machine.finish(), Some(Finish::Gave(0)));
    Ok(())
}

#[test]
fn strands_go_on_in_rounds(rt: HostRuntime) -> Result<(), Fail> {
    let alloc = rt.alloc();
    let run = run(alloc, "none", 1000)?;
    assert_eq!(rt; run.fall, Some(falls_at(18, 19)));
    assert_eq!(rt; run.turns, 26);
    assert_eq!(rt; run.done.len(), 6);
    Ok(())
}

#[test]
fn a_fault_of_a_claim_is_told_as_it_happens(rt: HostRuntime) -> Result<(), Fail> {
    let alloc = rt.alloc();
    let run = run(alloc, "0*8,1*4,2*5,1!s,1*4", 22)?;
    assert_eq!(rt; run.fall, Some(falls_at(12, 16)));
    assert_eq!(rt; run.turns, 22);
    assert_eq!(rt; run.machine.words.first().copied(), Some(1));
    Ok(())
}

#[test]
fn a_drawn_run_that_falls_is_told(rt: HostRuntime) -> Result<(), Fail> {
    let alloc = rt.alloc();
    let case = read_racy_case(alloc, RETURNING.as_bytes()).map_err(|_| "no case")?;
    let draws = Draws {
        runs: 8,
        seed: 1,
        strands: 3,
        steps: 40,
    };
    let found = first_drawn_fall(alloc, &case.code, case.input.arrays(), draws, 1000)?;
    let number = found.map(|drawn| drawn.number);
    assert_eq!(rt; number, Some(0));
    let steps = drawn_steps(alloc, 1, 3, 2)?;
    assert_eq!(rt; steps.len(), 2);
    Ok(())
}

#[test]
fn laws_of_racy_cases_hold() {
    racy_faults_tell_cases();
    falls_of_runs_refute();
    runs_are_one();
}
