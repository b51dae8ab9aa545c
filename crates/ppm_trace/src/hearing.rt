//! Follows a schedule, and lets a listener hear each turn before it is made.
ghost use Rattle.std.specs.Prelude.{◌≡◌, ◌<◌, ◌≤◌, ◌^◌, [], ◌∷◌, OnOk, replicate, false};
ghost use Rattle.std.specs.List.{All};
ghost use Rattle.ppm_choice.specs.Course.{InRound, Listed, processor_of};
ghost use Rattle.ppm_choice.specs.Schedules.{dues_of, listed, round, rounds, schedule_turns};
ghost use Rattle.ppm_core.specs.Acts.{is_done_at};
ghost use Rattle.ppm_core.specs.Machine.{seen};
ghost use Rattle.ppm_following.specs.Followed.{followed};
ghost use Rattle.ppm_plan.specs.Schedules.{IsActAmong, IsItemAmong};
ghost use Rattle.ppm_step.specs.State.{stand_of};
ghost use Rattle.ppm_trace.specs.Hearing.{hearing, Hears, IsHearing};

use crate::listener::Listener;
use ppm_core::Machine;
use ppm_following::{Way, processor_of, turn_of};
use ppm_plan::{Schedule, ScheduleItem, ScheduledAct};
use ppm_words::NoMemory;
use std::alloc::Global;

/// Lets an act be heard and makes it, where one is left and its processor isn't done.
fn hear_and_make<L: Listener>(
    alloc: Global,
    machine: &mut Machine,
    way: &mut Way,
    listener: &L,
    notes: &mut L::Notes,
    act: ScheduledAct,
) -> Result<(), NoMemory>
    requires among { IsActAmong (seen machine.old).shape.processors act }
    requires is { IsHearing (L.listens listener.now) (hearing (seen machine.old) way.old notes.old) }
    requires left { 0 < way.old.left }
    requires lives { is_done_at (stand_of (seen machine.old).state (processor_of act)) ≡ false }
    ensures hears { OnOk result (Hears (L.heard listener.now) (Listed act
        ∷ []) (hearing (seen machine.old) way.old notes.old) (hearing (seen machine.new) way.new notes.new)) }
    ensures is { OnOk result (IsHearing (L.listens listener.now) (hearing (seen machine.new) way.new notes.new)) }
{
    let turn = turn_of(machine, way, act);
    listener.hear(alloc, notes, machine, turn)?;
    machine.turn(turn);
    way.left -= 1;
    Ok(())
}

/// Makes the act of an item so often, if its processor isn't done.
fn repeat<L: Listener>(
    alloc: Global,
    machine: &mut Machine,
    way: &mut Way,
    listener: &L,
    notes: &mut L::Notes,
    item: ScheduleItem,
) -> Result<(), NoMemory>
    requires among { IsActAmong (seen machine.old).shape.processors item.act }
    requires is { IsHearing (L.listens listener.now) (hearing (seen machine.old) way.old notes.old) }
    ensures hears { OnOk result (Hears (L.heard listener.now) (replicate item.times (Listed item.act))
        (hearing (seen machine.old) way.old notes.old) (hearing (seen machine.new) way.new notes.new)) }
    ensures is { OnOk result (IsHearing (L.listens listener.now) (hearing (seen machine.new) way.new notes.new)) }
{
    let processor = processor_of(item.act);
    let mut left = item.times;
    while left > 0 {
        if way.left == 0 {
            return Ok(());
        }
        if machine.is_done(processor) {
            return Ok(());
        }
        hear_and_make(alloc, machine, way, listener, notes, item.act)?;
        left -= 1;
    }
    Ok(())
}

/// Makes the acts of a list.
fn list<L: Listener>(
    alloc: Global,
    machine: &mut Machine,
    way: &mut Way,
    listener: &L,
    notes: &mut L::Notes,
    items: &[ScheduleItem],
) -> Result<(), NoMemory>
    requires among { All (IsItemAmong (seen machine.old).shape.processors) items.now }
    requires is { IsHearing (L.listens listener.now) (hearing (seen machine.old) way.old notes.old) }
    ensures hears { OnOk result (Hears (L.heard listener.now) (listed items.now)
        (hearing (seen machine.old) way.old notes.old) (hearing (seen machine.new) way.new notes.new)) }
    ensures is { OnOk result (IsHearing (L.listens listener.now) (hearing (seen machine.new) way.new notes.new)) }
{
    let mut left = items;
    while let [item, rest @ ..] = left {
        repeat(alloc, machine, way, listener, notes, *item)?;
        left = rest;
    }
    Ok(())
}

/// Makes the step of a processor after the list, if it isn't done.
fn step<L: Listener>(
    alloc: Global,
    machine: &mut Machine,
    way: &mut Way,
    listener: &L,
    notes: &mut L::Notes,
    processor: u32,
) -> Result<(), NoMemory>
    requires among { processor < (seen machine.old).shape.processors }
    requires is { IsHearing (L.listens listener.now) (hearing (seen machine.old) way.old notes.old) }
    ensures hears { OnOk result (Hears (L.heard listener.now) (InRound processor
        ∷ []) (hearing (seen machine.old) way.old notes.old) (hearing (seen machine.new) way.new notes.new)) }
    ensures is { OnOk result (IsHearing (L.listens listener.now) (hearing (seen machine.new) way.new notes.new)) }
{
    if way.left == 0 {
        return Ok(());
    }
    if machine.finish_word() != 0 {
        return Ok(());
    }
    if machine.is_done(processor) {
        return Ok(());
    }
    let act = ScheduledAct::Step {
        processor,
        victim: None,
    };
    hear_and_make(alloc, machine, way, listener, notes, act)?;
    Ok(())
}

/// Lets each processor make a step, from 0.
fn go_round<L: Listener>(
    alloc: Global,
    machine: &mut Machine,
    way: &mut Way,
    listener: &L,
    notes: &mut L::Notes,
) -> Result<(), NoMemory>
    requires is { IsHearing (L.listens listener.now) (hearing (seen machine.old) way.old notes.old) }
    ensures hears { OnOk result (Hears (L.heard listener.now) (round (seen machine.old).shape.processors)
        (hearing (seen machine.old) way.old notes.old) (hearing (seen machine.new) way.new notes.new)) }
    ensures is { OnOk result (IsHearing (L.listens listener.now) (hearing (seen machine.new) way.new notes.new)) }
{
    let processors = machine.processors();
    let mut processor = 0;
    while processor < processors {
        step(alloc, machine, way, listener, notes, processor)?;
        processor += 1;
    }
    Ok(())
}

/// Lets the processors make steps in turn, while the finish word says nothing.
fn go_on<L: Listener>(
    alloc: Global,
    machine: &mut Machine,
    way: &mut Way,
    listener: &L,
    notes: &mut L::Notes,
    count: u64,
) -> Result<(), NoMemory>
    requires is { IsHearing (L.listens listener.now) (hearing (seen machine.old) way.old notes.old) }
    ensures hears { OnOk result (Hears (L.heard listener.now) (rounds (seen machine.old).shape.processors count)
        (hearing (seen machine.old) way.old notes.old) (hearing (seen machine.new) way.new notes.new)) }
{
    let mut left = count;
    while left > 0 {
        if way.left == 0 {
            return Ok(());
        }
        if machine.finish_word() != 0 {
            return Ok(());
        }
        go_round(alloc, machine, way, listener, notes)?;
        left -= 1;
    }
    Ok(())
}

/// Makes the run of a schedule, of as many acts at most as are left: those of a list, and after
/// these those of all processors in turn.
fn follow_on<L: Listener>(
    alloc: Global,
    machine: &mut Machine,
    way: &mut Way,
    listener: &L,
    notes: &mut L::Notes,
    items: &[ScheduleItem],
) -> Result<(), NoMemory>
    requires among { All (IsItemAmong (seen machine.old).shape.processors) items.now }
    requires is { IsHearing (L.listens listener.now) (hearing (seen machine.old) way.old notes.old) }
    ensures hears { OnOk result (Hears (L.heard listener.now) (dues_of (seen machine.old).shape.processors items.now way.old.left)
        (hearing (seen machine.old) way.old notes.old) (hearing (seen machine.new) way.new notes.new)) }
{
    let rounds = way.left;
    list(alloc, machine, way, listener, notes, items)?;
    go_on(alloc, machine, way, listener, notes, rounds)?;
    Ok(())
}

/// Makes the run of a schedule, of at most so many acts, 2^40 at most, as `follow` of
/// `ppm_following` does. The listener hears each act that is made, in the order of the acts, each
/// before it is made. `Err` only where memory is refused.
pub fn follow_heard<L: Listener>(
    alloc: Global,
    machine: &mut Machine,
    schedule: &Schedule,
    acts: u64,
    listener: &L,
    notes: &mut L::Notes,
) -> Result<(), NoMemory>
    requires processors { schedule.now.processors ≡ (seen machine.old).shape.processors }
    requires acts { acts ≤ 2 ^ 40 }
    requires few { (seen machine.old).turns ≤ 2 ^ 61 }
    requires listens { L.listens listener.now (seen machine.old) notes.old }
    ensures made { OnOk result (seen machine.new
        ≡ followed (seen machine.old) schedule.now.items acts) }
    ensures heard { OnOk result (L.heard listener.now (seen machine.old)
        (schedule_turns (seen machine.old).shape (seen machine.old).code (seen machine.old).state schedule.now.items acts) notes.old notes.new) }
{
    let mut way = Way::first(acts);
    follow_on(alloc, machine, &mut way, listener, notes, schedule.items())?;
    Ok(())
}
