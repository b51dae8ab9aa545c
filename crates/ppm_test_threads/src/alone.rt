//! What one processor does alone on a machine, where it obeys.
ghost use Rattle.std.specs.Prelude.{◌↔◌, IsTrue};
ghost use Rattle.ppm_core.specs.Acts.{IsActAmong};

use ppm_choice::{Limits, Pace, is_over, next_act};
use ppm_core::Machine;
use ppm_plan::{Plan, Victims};
use ppm_step::{Act, Told, Turn};
use ppm_words::{Event, NoMemory};
use std::alloc::Global;

/// Whether the victim of an act is there.
fn is_among(processors: u32, act: Act) -> bool
    ensures { IsTrue result ↔ IsActAmong processors act }
{
    match act {
        Act::Step { victim } => victim < processors,
        Act::Soft | Act::Hard | Act::Quit(_) => true,
    }
}

/// An act of processor 0, if its victim is there: what is told of it, and whether a victim is due
/// after it.
fn take_turn(machine: &mut Machine, act: Act) -> Option<(Told, bool)> {
    let processors = machine.processors();
    if processors < 1 || !is_among(processors, act) || machine.turns() > 100_000 {
        return None;
    }
    let told = machine.turn(Turn { processor: 0, act });
    Some((told, machine.seeks_holder(0)))
}

/// Makes the next act of processor 0: its event. `None` where it makes none.
fn act_alone(
    machine: &mut Machine,
    pace: &mut Pace,
    victims: &mut Victims,
    plan: &Plan,
    limits: Limits,
) -> Option<Event> {
    if is_over(pace.next) {
        return None;
    }
    let act = next_act(pace, victims, plan, limits)?;
    let (told, due) = take_turn(machine, act)?;
    pace.count(limits, told, due);
    told.event
}

/// What processor 0 of a machine with one does alone, one act after the other, where it obeys: its
/// record, of 3,000 events at most.
pub fn record(
    alloc: Global,
    machine: &mut Machine,
    plan: &Plan,
    limits: Limits,
) -> Result<Vec<Event>, NoMemory> {
    let mut events = Vec::new(alloc);
    let mut pace = Pace::first(plan, 0);
    let mut victims = Victims::new(limits.seed, 0, 1);
    for _ in 0..3000u32 {
        match act_alone(machine, &mut pace, &mut victims, plan, limits) {
            Some(event) => events.push(event)?,
            None => break,
        }
    }
    Ok(events)
}
