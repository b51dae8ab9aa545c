//! Strands that race, step by step: what a turn tells, and which change does not stand.
use ppm_interleaving::{Change, Deed, Fallen, Machine, Turn, falls_refute, schedules_have_one_run};
use ppm_racy::RacyCode;
use ppm_racy_listing::read_racy_listing;
use std::alloc::Global;
use std::test::Fail;

/// The root forks two branches, of which one exchanges 0 for 1 in word 0, and one exchanges 1 for 0.
const RETURNING: &str = "ppm 1\nroot 0 0\nproc 0 slots 1 entry 0\nproc 1 slots 3 entry 2\n\
capsule 0 proc 0\nroom 23\nloadslot r0 0\nconst r1 1\nconst r2 0\nstorenew 11 r0\nstorenew 12 r2\n\
storenew 13 r1\nstorenew 20 r0\nstorenew 21 r1\nstorenew 22 r2\nfork 1 1 1\ncapsule 1 proc 0\nend\n\
capsule 2 proc 1\nloadslot r0 0\nconst r1 0\nloadslot r2 1\nloadslot r3 2\ncam r0 r1 r2 r3 1\nend\n";

fn code(alloc: Global) -> Result<RacyCode, Fail> {
    Ok(read_racy_listing(alloc, RETURNING.as_bytes()).map_err(|_| "no listing")?)
}

/// The root's strand, whose slot 0 has the array of one word, which is 0.
fn machine(alloc: Global, code: &RacyCode) -> Result<Machine, Fail> {
    Ok(Machine::new(alloc, code, vec![in alloc; 1]?, vec![in alloc; 0]?)?)
}

/// Makes `count` steps of a strand, and answers what others see of the last one.
fn steps(
    alloc: Global,
    code: &RacyCode,
    machine: &mut Machine,
    strand: u32,
    count: u32,
) -> Result<Option<Deed>, Fail> {
    let mut told = None;
    for _ in 0..count {
        told = machine.turn(alloc, code, Turn::Step { strand })?;
    }
    Ok(told)
}

/// The exchange of strand 1.
const FIRST: Fallen = Fallen {
    strand: 1,
    number: 0,
    change: Change::Exchanges {
        word: 0,
        old: 0,
        new: 1,
    },
};

#[test]
fn a_fork_is_told(rt: HostRuntime) -> Result<(), Fail> {
    let alloc = rt.alloc();
    let code = code(alloc)?;
    let mut machine = machine(alloc, &code)?;
    let told = steps(alloc, &code, &mut machine, 0, 8)?;
    let want = Deed::Forked {
        first: 1,
        branches: 2,
    };
    assert_eq!(rt; told, Some(want));
    Ok(())
}

#[test]
fn a_word_that_comes_back_is_told(rt: HostRuntime) -> Result<(), Fail> {
    let alloc = rt.alloc();
    let code = code(alloc)?;
    let mut machine = machine(alloc, &code)?;
    steps(alloc, &code, &mut machine, 0, 8)?;
    steps(alloc, &code, &mut machine, 1, 4)?;
    assert_eq!(rt; machine.fallen(), None);
    let told = steps(alloc, &code, &mut machine, 2, 4)?;
    let want = Deed::Changed {
        word: 0,
        was: 1,
        is: 0,
    };
    assert_eq!(rt; told, Some(want));
    assert_eq!(rt; machine.fallen(), Some(FIRST));
    Ok(())
}

/// A fault takes a strand back to the beginning of its capsule, where it has settled nothing; so
/// its exchange happens twice.
#[test]
fn a_fault_shows(rt: HostRuntime) -> Result<(), Fail> {
    let alloc = rt.alloc();
    let code = code(alloc)?;
    let mut machine = machine(alloc, &code)?;
    steps(alloc, &code, &mut machine, 0, 8)?;
    steps(alloc, &code, &mut machine, 1, 4)?;
    steps(alloc, &code, &mut machine, 2, 4)?;
    let told = machine.turn(alloc, &code, Turn::Fault { strand: 1 })?;
    assert_eq!(rt; told, None);
    assert_eq!(rt; machine.fallen(), None);
    let told = steps(alloc, &code, &mut machine, 1, 4)?;
    let want = Deed::Changed {
        word: 0,
        was: 0,
        is: 1,
    };
    assert_eq!(rt; told, Some(want));
    Ok(())
}

#[test]
fn the_laws_of_schedules_are_called() {
    falls_refute();
    schedules_have_one_run();
}
