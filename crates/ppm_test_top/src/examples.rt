//! Trials of `self`: what its watchers are told.
use crate::calls::{CODE, call, call_over};
use crate::told::{are_silent, is_shown, watchers};
use ppm_answers::Status;
use ppm_cells::{Shape, Takeover};
use ppm_choice::{Idle, Limits};
use ppm_code::Code;
use ppm_core::Machine;
use ppm_listing_reader::read_listing;
use ppm_loading::{Sizes, load, read_program};
use ppm_plan::{make_source, seeded_plan};
use ppm_ports::{MemorySource, Silent};
use ppm_test_threads::{obeys, record};
use ppm_top::WATCHERS;
use ppm_words::Event;
use std::alloc::Global;
use std::process::Abort;
use std::sync::Wait;
use std::test::Fail;
use std::thread::Threads;

/// More events than any watcher is told here.
const MANY: u32 = 1_000_000;

/// The limits by which the example is run with seed 7.
const LIMITS: Limits = Limits {
    turns: 268_435_456,
    looks: 1000,
    seed: 7,
    idle: Idle::Leave,
};

/// Words that ask for the example of four values with seed 7.
const OF_ONE: &[&str] = &[
    "ppm",
    "self",
    "--processors",
    "1",
    "--size",
    "4",
    "--seed",
    "7",
    "--count",
    "4096",
];

/// Words that ask three processors for it.
const OF_THREE: &[&str] = &[
    "ppm",
    "self",
    "--processors",
    "3",
    "--size",
    "4",
    "--seed",
    "7",
    "--count",
    "4096",
];

/// What both write.
const SUMS: &str = "size 4 forks 3 sum 214 last 100\n";

/// The machine with which the example of one processor begins.
fn machine(alloc: Global) -> Result<Machine, Fail> {
    let text = make_source(alloc, 4, 7).map_err(|_| "memory")?;
    let mut source = MemorySource::new(text, 4096, Vec::new(alloc));
    let sizes = Sizes {
        processors: 1,
        room: 262_144,
        slots: 8_192,
        takeover: Takeover::ByPlaces,
    };
    match read_program(alloc, &mut source) {
        Ok(program) => match load(alloc, sizes, &program, 0) {
            Ok(machine) => Ok(machine),
            Err(_) => Err(Fail::from("memory")),
        },
        Err(_) => Err(Fail::from("no program")),
    }
}

/// What its processor does alone.
fn alone(alloc: Global) -> Result<Vec<Event>, Fail> {
    let plan = seeded_plan(alloc, 7, 1, 4096).map_err(|_| "memory")?;
    let mut machine = machine(alloc)?;
    Ok(record(alloc, &mut machine, &plan, LIMITS).map_err(|_| "memory")?)
}

/// The code of the example.
fn code<R: Threads + Wait + Sync>(rt: &R, alloc: Global) -> Result<Code, Fail> {
    let text = make_source(alloc, 4, 7).map_err(|_| "memory")?;
    let mut silent = vec![in alloc; Silent; WATCHERS]?;
    let got = call_over(rt, alloc, CODE, &text, &mut silent)?;
    Ok(read_listing(alloc, got.out.as_slice()).map_err(|_| "no listing")?)
}

#[test]
fn one_is_told_what_it_does(rt: HostRuntime) -> Result<(), Fail> {
    let alloc = rt.alloc();
    let want = alone(alloc)?;
    assert!(&rt; want.iter().any(|event| event.step == 4), "no fault");
    let mut watch = watchers(alloc, MANY)?;
    let shown = call(&rt, alloc, OF_ONE, "", &mut watch)?;
    is_shown(&rt, &shown, SUMS, Status::Ended)?;
    let only = watch.first().ok_or("a first")?;
    assert!(&rt; only.events.as_slice() == want.as_slice());
    are_silent(&rt, &watch, 1)
}

#[test]
fn one_that_refuses_ends_the_example(rt: HostRuntime) -> Result<(), Fail> {
    let alloc = rt.alloc();
    let want = alone(alloc)?;
    for room in [0u32, 1, 7, 30, 200] {
        let mut watch = watchers(alloc, room)?;
        let shown = call(&rt, alloc, OF_ONE, "", &mut watch)?;
        is_shown(&rt, &shown, "out of memory\n", Status::NoMemory)?;
        let only = watch.first().ok_or("a first")?;
        assert_eq!(&rt; only.events.len(), room as usize);
        assert!(&rt; want.starts_with(only.events.as_slice()), "{room}");
        are_silent(&rt, &watch, 1)?;
    }
    Ok(())
}

#[test]
fn three_are_told_of_what_they_do(rt: HostRuntime) -> Result<(), Fail> {
    let alloc = rt.alloc();
    let shape = Shape::new(3, 262_144, 8_192, 4).ok_or("within the limits")?;
    let code = code(&rt, alloc)?;
    let plan = seeded_plan(alloc, 7, 3, 4096).map_err(|_| "memory")?;
    let mut watch = watchers(alloc, MANY)?;
    let shown = call(&rt, alloc, OF_THREE, "", &mut watch)?;
    is_shown(&rt, &shown, SUMS, Status::Ended)?;
    let mut own = 0u32;
    for told in &watch {
        if own < 3 {
            let fine = obeys(
                &shape,
                &code,
                &plan,
                LIMITS,
                own,
                told.events.as_slice(),
                false,
            );
            assert!(&rt; fine, "processor {own}");
        }
        own = own.saturating_add(1);
    }
    are_silent(&rt, &watch, 3)
}
