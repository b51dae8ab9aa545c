//! Processors of a table whose turns no plan says: two that go to the end side by side, and acts of
//! one in a given order.
ghost use Rattle.std.specs.Prelude.{◌≡◌, IfSome};
ghost use Rattle.ppm_step.specs.Locals.{standing_of};
ghost use Rattle.ppm_step.specs.declared.turn.Act.TheVariants.{Step};
ghost use Rattle.ppm_table.specs.Run.{IsActAt};
ghost use Rattle.ppm_table.specs.Shown.{InOrder, IsOf};

use crate::tables::table_of;
use ppm_cells::{Cell, Ending, Finish};
use ppm_step::{Act, Local};
use ppm_stretch::is_due;
use ppm_table::{Closed, Processor, Shared, is_done};
use ppm_test_turns::SUM;
use ppm_words::Event;
use std::alloc::Global;
use std::test::Fail;
use std::thread;
use std::thread::{Threads, join_mut};

/// The victim of a step: where one is due the processors go round.
fn victim_of(shared: &Shared, local: &Local, turn: u32) -> u32
    ensures { IsActAt shared.now.shape (standing_of shared.now.shape shared.now.code local.now) (Step result) }
{
    let _ = shared.shape.slots;
    if is_due(local) {
        turn % shared.shape.processors
    } else {
        0
    }
}

/// Makes the next step of a processor: what is told of it.
fn step(shared: &Shared, processor: &mut Processor, turn: u32) -> Option<Event>
    requires { IsOf shared.now processor.old }
    ensures of { IsOf shared.now processor.new }
    ensures own { processor.new.local.own ≡ processor.old.local.own }
{
    let victim = victim_of(shared, &processor.local, turn);
    processor.turn(shared, Act::Step { victim }).event
}

/// Lets a processor make steps until it is done: whether it is.
fn ends(shared: &Shared, processor: &mut Processor) -> bool
    requires { IsOf shared.now processor.old }
    ensures of { IsOf shared.now processor.new }
    ensures own { processor.new.local.own ≡ processor.old.local.own }
{
    for turn in 0..1_000_000_000u32 {
        if is_done(&processor.local) {
            return true;
        }
        if is_due(&processor.local) {
            thread::yield_now();
        }
        step(shared, processor, turn);
    }
    false
}

/// Lets two processors make steps until they are done, side by side, each on its thread: whether
/// they are.
fn both_end<R: Threads + Sync>(
    rt: &R,
    shared: &Shared,
    first: &mut Processor,
    second: &mut Processor,
) -> (bool, bool)
    requires of { IsOf shared.now first.old × IsOf shared.now second.old }
    ensures of { IsOf shared.now first.new × IsOf shared.now second.new }
    ensures own { (first.new.local.own ≡ first.old.local.own)
        × (second.new.local.own ≡ second.old.local.own) }
{
    let mut one = || -> bool
        requires { IsOf shared.now first.now }
        ensures { IsOf shared.entry.now first.exit.now × (first.exit.now.local.own ≡ first.entry.now.local.own) }
    { ends(shared, first) };
    let mut other = || -> bool
        requires { IsOf shared.now second.now }
        ensures { IsOf shared.entry.now second.exit.now × (second.exit.now.local.own ≡ second.entry.now.local.own) }
    { ends(shared, second) };
    // Where no thread can be made, the keeper runs before the other one.
    let (y, x) = join_mut(rt, &mut other, &mut one);
    (x, y)
}

/// Takes the last of the processors of a table.
fn last_of(shared: &Shared, all: &mut Vec<Processor>) -> Option<Processor>
    requires { InOrder shared.now 0 all.old.items }
    ensures rest { InOrder shared.now 0 all.new.items }
    ensures last { IfSome result (IsOf shared.now) }
{
    let _ = shared.shape.slots;
    all.pop()
}

/// The words once both processors are back, if these are processors 0 and 1.
fn closed_by(
    alloc: Global,
    shared: Shared,
    first: Processor,
    second: Processor,
) -> Result<Closed, Fail>
    requires { IsOf shared first × IsOf shared second }
{
    if first.local.own != 0 {
        return Err(Fail::from("another first"));
    }
    if second.local.own != 1 {
        return Err(Fail::from("another second"));
    }
    let back = vec![in alloc; first, second]?;
    Ok(shared.close(back))
}

/// The sum of an array on two threads, by a table that is loaded and closed.
fn sum_of_two<R: Threads + Sync>(rt: &R, alloc: Global) -> Result<Closed, Fail> {
    let (shared, mut all) = table_of(alloc, SUM, [1, 2, 3, 4], 2)?;
    let mut second = last_of(&shared, &mut all).ok_or("a second")?;
    let mut first = last_of(&shared, &mut all).ok_or("a first")?;
    let both = both_end(rt, &shared, &mut first, &mut second);
    if both != (true, true) {
        return Err(Fail::from("not done"));
    }
    closed_by(alloc, shared, first, second)
}

#[test]
fn two_sum_side_by_side(rt: HostRuntime) -> Result<(), Fail> {
    let alloc = rt.alloc();
    for _ in 0..10u32 {
        let closed = sum_of_two(&rt, alloc)?;
        assert_eq!(&rt; closed.shape().processors, 2);
        assert!(&rt; closed.outcome() == Ending::With(Finish::Ended));
        assert_eq!(&rt; closed.finish_word(), Finish::Ended.pack());
        assert_eq!(&rt; closed.arrays(), 1);
        let array = closed.array(alloc, 0)?;
        assert_eq!(&rt; array.as_slice(), [10, 2, 7, 4].as_slice());
    }
    Ok(())
}

/// Makes steps until one stores this word: what it stores.
fn stored(shared: &Shared, processor: &mut Processor, at: u32) -> Option<u64>
    requires { IsOf shared.now processor.old }
    ensures { IsOf shared.now processor.new }
{
    for _ in 0..1000u32 {
        let event = step(shared, processor, 0)?;
        if event.step == 2 && event.word == at {
            return Some(event.value);
        }
    }
    None
}

/// A soft fault: what is told of it.
fn soften(shared: &Shared, processor: &mut Processor) -> Option<Event>
    requires { IsOf shared.now processor.old }
    ensures { IsOf shared.now processor.new }
{
    processor.turn(shared, Act::Soft).event
}

/// What the restart word of the only place is set to; and the fault after that, and two steps.
fn behind_a_fault(alloc: Global) -> Result<(u32, Option<u64>, [Option<Event>; 3]), Fail> {
    let (shared, mut all) = table_of(alloc, SUM, [1, 2, 3, 4], 1)?;
    let mut only = last_of(&shared, &mut all).ok_or("a processor")?;
    let _ = shared.shape.slots;
    let at = shared.shape.address(Cell::RestartWord { place: 0 });
    let word = stored(&shared, &mut only, at);
    let fault = soften(&shared, &mut only);
    let carried = step(&shared, &mut only, 0);
    let found = step(&shared, &mut only, 0);
    Ok((at, word, [fault, carried, found]))
}

#[test]
fn one_goes_on_where_it_was(rt: HostRuntime) -> Result<(), Fail> {
    let (at, word, [fault, carried, found]) = behind_a_fault(rt.alloc())?;
    assert!(&rt; fault.is_some_and(|e| e.step == 4));
    assert!(&rt; carried.is_some_and(|e| e.step == 1 && e.value == 0));
    let found = found.ok_or("a load")?;
    assert_eq!(&rt; (found.step, found.word), (1, at));
    assert_eq!(&rt; Some(found.value), word);
    Ok(())
}
