//! What the trials run: listings, over an array of four words.
ghost use Rattle.std.specs.Prelude.{◌≡◌, ◌<◌, IfOk};
ghost use Rattle.std.specs.List.{All};
ghost use Rattle.ppm_table.specs.Shown.{AreNewOf};

use ppm_cells::{Ending, Finish, Shape};
use ppm_choice::{Idle, Limits};
use ppm_code::Code;
use ppm_core::Machine;
use ppm_layout::{Image, image};
use ppm_plan::{Plan, read_plan};
use ppm_ports::{Recorder, Watch};
use ppm_table::{ActCounts, Closed, Processor, Shared};
use ppm_test_turns::{FORK, FORKED, code_of, four_words};
use ppm_threads::{drive, drive_counted};
use std::alloc::Global;
use std::sync::Wait;
use std::test::Fail;
use std::thread::Threads;

/// Sets registers to other than 0, and puts what later capsules find in them into its array. These
/// read registers up to r7, the last that is set to 0 by itself; up to r8, the next; and up to r63.
pub(crate) const ZEROS: &str = "ppm 1\nroot 0 0\nproc 0 slots 1 entry 0\n\
capsule 0 proc 0\nconst r0 3\nconst r7 5\nconst r8 6\nnext 1\n\
capsule 1 proc 0\nloadslot r1 0\nconst r2 2\nput r1 r2 r0 1\nconst r2 3\nput r1 r2 r7 1\nnext 2\n\
capsule 2 proc 0\nloadslot r0 0\nconst r1 0\nput r0 r1 r8 1\nconst r63 8\nnext 3\n\
capsule 3 proc 0\nloadslot r0 0\nconst r1 1\nput r0 r1 r63 1\nend\n";

/// Goes round for ever.
pub(crate) const LOOP: &str = "ppm 1\nroot 0\nproc 0 slots 0 entry 0\ncapsule 0 proc 0\nnext 0\n";

/// Limits that no run here meets.
pub(crate) const WIDE: Limits = Limits {
    turns: 1_000_000,
    looks: 1_000_000,
    seed: 1,
    idle: Idle::Leave,
};

/// The code of the listing that forks.
pub(crate) fn fork_code(alloc: Global) -> Result<Code, Fail>
    ensures { IfOk result (λ code. All (λ array. array < 1) code.arrays) }
{
    code_of(alloc, FORK)
}

/// The sizes of a machine for the listings and their array.
pub(crate) fn fork_shape(processors: u32) -> Result<Shape, Fail>
    ensures { IfOk result (λ shape. shape.arrays ≡ 4) }
{
    Ok(Shape::new(processors, 128, 4, 4).ok_or("within the limits")?)
}

/// The image of a code over these words.
fn image_of(alloc: Global, code: &Code, words: [i64; 4], processors: u32) -> Result<Image, Fail>
    requires { All (λ array. array < 1) code.now.arrays }
{
    let input = four_words(alloc, words)?;
    let shape = fork_shape(processors)?;
    Ok(image(alloc, code, &input, shape, 0).map_err(|_| "memory")?)
}

/// A machine of one processor for the listing that forks.
pub(crate) fn fork_machine(alloc: Global) -> Result<Machine, Fail> {
    let code = fork_code(alloc)?;
    let made = image_of(alloc, &code, FORKED, 1)?;
    Ok(Machine::load(alloc, made, code).map_err(|_| "memory")?)
}

/// A table for a listing over these words, with its processors.
pub(crate) fn table_of(
    alloc: Global,
    listing: &str,
    words: [i64; 4],
    processors: u32,
) -> Result<(Shared, Vec<Processor>), Fail>
    ensures { IfOk result (λ made. AreNewOf made.0 made.1.items) }
{
    let code = code_of(alloc, listing)?;
    let made = image_of(alloc, &code, words, processors)?;
    match Shared::load(alloc, made, code) {
        Ok(loaded) => Ok(loaded),
        Err(_) => Err(Fail::from("memory")),
    }
}

/// The plan of a text.
pub(crate) fn plan_of(alloc: Global, faults: &str, processors: u32) -> Result<Plan, Fail> {
    if processors < 1 || processors > 64 {
        return Err(Fail::from("processors out of range"));
    }
    Ok(read_plan(alloc, faults.as_bytes(), processors).map_err(|_| "no plan")?)
}

/// The listing that forks on so many threads; `None` where memory was refused, or by a watcher.
pub(crate) fn run<W: Watch, R: Threads + Wait + Sync>(
    rt: &R,
    alloc: Global,
    faults: &str,
    limits: Limits,
    processors: u32,
    watch: &mut Vec<W>,
) -> Result<Option<Closed>, Fail> {
    run_listing(rt, alloc, FORK, faults, limits, processors, watch)
}

/// A listing on so many threads; `None` where memory was refused, or by a watcher.
pub(crate) fn run_listing<W: Watch, R: Threads + Wait + Sync>(
    rt: &R,
    alloc: Global,
    listing: &str,
    faults: &str,
    limits: Limits,
    processors: u32,
    watch: &mut Vec<W>,
) -> Result<Option<Closed>, Fail> {
    let plan = plan_of(alloc, faults, processors)?;
    let (shared, all) = table_of(alloc, listing, FORKED, processors)?;
    if plan.processors() != shared.shape.processors || all.len() > watch.len() {
        return Err(Fail::from("as many processors, and a watcher for each"));
    }
    match drive(rt, alloc, shared, all, &plan, limits, watch) {
        Ok(closed) => Ok(Some(closed)),
        Err(_) => Ok(None),
    }
}

/// What is counted where the listing that forks runs on so many threads.
pub(crate) fn counted_run<R: Threads + Wait + Sync>(
    rt: &R,
    alloc: Global,
    faults: &str,
    processors: u32,
) -> Result<ActCounts, Fail> {
    let plan = plan_of(alloc, faults, processors)?;
    let code = fork_code(alloc)?;
    let made = image_of(alloc, &code, FORKED, processors)?;
    let (shared, all) = Shared::load_to_count(alloc, made, code, true).map_err(|_| "memory")?;
    let mut watch = recorders(alloc, processors)?;
    if plan.processors() != shared.shape.processors || all.len() > watch.len() {
        return Err(Fail::from("as many processors, and a watcher for each"));
    }
    match drive_counted(rt, alloc, shared, all, &plan, WIDE, &mut watch) {
        Ok((_, counts)) => Ok(counts),
        Err(_) => Err(Fail::from("memory")),
    }
}

/// Whether a run of the listing that forks has come to 1, 2, 7 and 4.
pub(crate) fn is_right(alloc: Global, closed: &Closed) -> Result<bool, Fail> {
    if closed.outcome() != Ending::With(Finish::Ended) || closed.arrays() != 1 {
        return Ok(false);
    }
    let array = closed.array(alloc, 0).map_err(|_| "memory")?;
    Ok(array.as_slice() == [1, 2, 7, 4].as_slice())
}

/// Watchers that keep what they are told, of the given number.
pub(crate) fn recorders(alloc: Global, count: u32) -> Result<Vec<Recorder>, Fail> {
    let mut all = Vec::new(alloc);
    for _ in 0..count {
        all.push(Recorder::new(alloc))?;
    }
    Ok(all)
}
