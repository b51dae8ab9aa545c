//! Goes through the schedules of a sweep, in order.
ghost use Rattle.std.specs.Prelude.{◌≡◌, ◌<◌, ◌≤◌, ◌+◌, ◌^◌, ◌∷◌, [], nat_le, length, IfOk, IfErr, false};
ghost use Rattle.std.specs.List.{flat_map};
ghost use Rattle.ppm_plan.specs.Refusals.{item_limit};
ghost use Rattle.ppm_core.specs.Acts.{is_done_at};
ghost use Rattle.ppm_core.specs.Machine.{seen};
ghost use Rattle.ppm_core.specs.Situation.{Situation};
ghost use Rattle.ppm_step.specs.State.{stand_of};
ghost use Rattle.ppm_choice.specs.Schedules.{dues_of};
ghost use Rattle.ppm_sweep.specs.Ahead.{dues_in};
ghost use Rattle.ppm_sweep.specs.Found.{AllCome, Finds, Stops, swept_by, zero_tally};
ghost use Rattle.ppm_sweep.specs.Meets.{HasArraysOf};
ghost use Rattle.ppm_sweep.specs.Spots.{first_way, place_of, CameFrom, IsSpot};
ghost use Rattle.ppm_sweep.specs.Sweep.{alone as alone_at};
ghost use Rattle.ppm_sweep.specs.Visits.{base_of, swept_ahead, swept_from, swept_further, swept_in, swept_struck, IsStart};
ghost use Rattle.ppm_sweep.specs.Visits.{PassesOn, Visits};

use crate::drawing::windows;
use crate::found::{Differing, Stop, Tally};
use crate::front::both;
use crate::meeting::meets;
use crate::options::{Sweeping, Window};
use crate::spot::{Spot, advance, begin, is_over, processor_of, skip, struck};
use ppm_core::Machine;
use ppm_following::follow_on;
use ppm_plan::{Fault, ITEM_LIMIT, Schedule, ScheduleItem};
use ppm_words::Outcome;
use std::alloc::Global;

/// Whether two lists together have no more items than a schedule may.
fn are_few(front: &[ScheduleItem], rest: &[ScheduleItem]) -> bool
    ensures { result ≡ nat_le (length front.now + length rest.now) item_limit }
{
    front.len() <= ITEM_LIMIT && rest.len() <= ITEM_LIMIT - front.len()
}

/// Goes on from a place to the end of its run, if its schedule has no more items than it may;
/// otherwise it is counted among those that are left out.
fn alone(
    alloc: Global,
    spot: &Spot,
    turns: u64,
    wanted: &Outcome,
    tally: &mut Tally,
) -> Result<(), Stop>
    requires spot { IsSpot wanted.now spot.now }
    ensures { (m : Situation) → m.turns ≡ 0 → CameFrom m (first_way turns) spot.now
        → Finds m turns wanted.now (alone_at spot.now.faults (place_of spot.now) ∷ []) tally.old tally.new result }
{
    let rest = spot.ahead.rest(alloc)?;
    let front = spot.front.as_slice();
    let left = rest.as_slice();
    if !are_few(front, left) {
        return tally.leave_out();
    }
    let mut machine = spot.machine.copy(alloc)?;
    let mut way = spot.way;
    follow_on(&mut machine, &mut way, left, turns);
    if !meets(&machine, wanted) {
        let items = both(alloc, front, left)?;
        return Err(Stop::Differs(Differing { items, machine }));
    }
    tally.count(spot.faults, machine.turns())
}

/// Goes through all schedules that go on from a place: the one without a further fault first.
#[cycle(sweeps)]
fn sweep_from(
    alloc: Global,
    spot: Spot,
    sweeping: Sweeping,
    wanted: &Outcome,
    tally: &mut Tally,
) -> Result<(), Stop>
    requires spot { IsSpot wanted.now spot }
    requires dues { dues_in spot.ahead ≡ dues_of (seen spot.machine).shape.processors spot.ahead.rest sweeping.turns }
    requires begins { spot.number ≡ 0 }
    ensures { (m : Situation) → m.turns ≡ 0 → CameFrom m (first_way sweeping.turns) spot
        → Finds m sweeping.turns wanted.now (swept_from sweeping spot) tally.old tally.new result }
{
    alone(alloc, &spot, sweeping.turns, wanted, tally)?;
    further(alloc, spot, sweeping, wanted, tally)
}

/// Goes through the schedules that go on from a place and have a further fault, if there may be one.
#[cycle(sweeps)]
fn further(
    alloc: Global,
    spot: Spot,
    sweeping: Sweeping,
    wanted: &Outcome,
    tally: &mut Tally,
) -> Result<(), Stop>
    requires spot { IsSpot wanted.now spot }
    requires dues { dues_in spot.ahead ≡ dues_of (seen spot.machine).shape.processors spot.ahead.rest sweeping.turns }
    requires begins { spot.number ≡ 0 }
    ensures { (m : Situation) → m.turns ≡ 0 → CameFrom m (first_way sweeping.turns) spot
        → Finds m sweeping.turns wanted.now (swept_further sweeping spot) tally.old tally.new result }
{
    if sweeping.faults == 0 {
        return Ok(());
    }
    walk(alloc, spot, sweeping, wanted, tally)
}

/// Makes the run of a place, and goes through the schedules with a fault before each of its acts.
#[cycle(sweeps)]
fn walk(
    alloc: Global,
    spot: Spot,
    sweeping: Sweeping,
    wanted: &Outcome,
    tally: &mut Tally,
) -> Result<(), Stop>
    requires spot { IsSpot wanted.now spot }
    requires more { 0 < sweeping.faults }
    ensures { (m : Situation) → m.turns ≡ 0 → CameFrom m (first_way sweeping.turns) spot
        → Finds m sweeping.turns wanted.now (swept_ahead sweeping spot) tally.old tally.new result }
{
    let mut spot = spot;
    'acts: loop {
        let more = visit(alloc, &mut spot, sweeping, wanted, tally)?;
        if !more {
            return Ok(());
        }
    }
}

/// Goes through the schedules with a fault before what comes next, if it is made and is to have
/// one, and passes it; false where nothing more is made, or all after it is to have none.
#[cycle(sweeps)]
fn visit(
    alloc: Global,
    spot: &mut Spot,
    sweeping: Sweeping,
    wanted: &Outcome,
    tally: &mut Tally,
) -> Result<bool, Stop>
    requires spot { IsSpot wanted.now spot.old }
    requires more { 0 < sweeping.faults }
    ensures visits { (m : Situation) → m.turns ≡ 0 → CameFrom m (first_way sweeping.turns) spot.old
        → Visits m wanted.now sweeping spot.old spot.new tally.old tally.new result }
    ensures goes_on { IfOk result (λ more. PassesOn more spot.old spot.new) }
{
    let Some(coming) = spot.ahead.first() else {
        return Ok(false);
    };
    if is_over(spot, coming) {
        return Ok(false);
    }
    if sweeping.window.is_before(spot.number) {
        return Ok(false);
    }
    let processor = processor_of(coming);
    if spot.machine.is_done(processor) {
        skip(spot, coming)?;
        return Ok(true);
    }
    if sweeping.window.has(spot.number) {
        strikes(alloc, spot, processor, sweeping, wanted, tally)?;
    }
    advance(spot, coming)?;
    Ok(true)
}

/// Goes through the schedules with a fault of a processor at a place: a soft one, and then a hard
/// one, unless it is the keeper.
#[cycle(sweeps)]
fn strikes(
    alloc: Global,
    spot: &Spot,
    processor: u32,
    sweeping: Sweeping,
    wanted: &Outcome,
    tally: &mut Tally,
) -> Result<(), Stop>
    requires spot { IsSpot wanted.now spot.now }
    requires more { 0 < sweeping.faults }
    requires there { processor < (seen spot.now.machine).shape.processors }
    requires left { 0 < spot.now.way.left }
    requires lives { is_done_at (stand_of (seen spot.now.machine).state processor) ≡ false }
    ensures { (m : Situation) → m.turns ≡ 0 → CameFrom m (first_way sweeping.turns) spot.now
        → Finds m sweeping.turns wanted.now (swept_struck sweeping spot.now processor) tally.old tally.new result }
{
    let deeper = sweeping.deeper();
    let soft = struck(alloc, spot, processor, Fault::Soft, sweeping.turns)?;
    sweep_from(alloc, soft, deeper, wanted, tally)?;
    if processor == sweeping.keeper {
        return Ok(());
    }
    let hard = struck(alloc, spot, processor, Fault::Hard, sweeping.turns)?;
    sweep_from(alloc, hard, deeper, wanted, tally)
}

/// Goes through the schedules of a sweep whose first fault comes before an act in a window.
fn sweep_window(
    alloc: Global,
    machine: &Machine,
    schedule: &Schedule,
    sweeping: Sweeping,
    wanted: &Outcome,
    tally: &mut Tally,
) -> Result<(), Stop>
    requires start { IsStart schedule.now machine.now sweeping wanted.now }
    ensures { Finds (seen machine.now) sweeping.turns wanted.now
        (swept_in (seen machine.now) schedule.now.items sweeping sweeping.window) tally.old tally.new result }
{
    let spot = begin(alloc, machine, schedule, sweeping.turns)?;
    further(alloc, spot, sweeping, wanted, tally)
}

/// Goes through the schedules of a sweep, one window after another.
fn sweep_windows(
    alloc: Global,
    machine: &Machine,
    schedule: &Schedule,
    sweeping: Sweeping,
    windows: &[Window],
    wanted: &Outcome,
    tally: &mut Tally,
) -> Result<(), Stop>
    requires start { IsStart schedule.now machine.now sweeping wanted.now }
    ensures { Finds (seen machine.now) sweeping.turns wanted.now
        (flat_map (swept_in (seen machine.now) schedule.now.items sweeping) windows.now) tally.old tally.new result }
{
    let mut left = windows;
    while let [window, rest @ ..] = left {
        let over = sweeping.over(*window);
        sweep_window(alloc, machine, schedule, over, wanted, tally)?;
        left = rest;
    }
    Ok(())
}

/// The run of the base schedule.
fn sweep_base(
    alloc: Global,
    machine: &Machine,
    schedule: &Schedule,
    sweeping: Sweeping,
    wanted: &Outcome,
    tally: &mut Tally,
) -> Result<(), Stop>
    requires start { IsStart schedule.now machine.now sweeping wanted.now }
    ensures { Finds (seen machine.now) sweeping.turns wanted.now
        (base_of (seen machine.now) schedule.now.items sweeping ∷ []) tally.old tally.new result }
{
    let spot = begin(alloc, machine, schedule, sweeping.turns)?;
    alone(alloc, &spot, sweeping.turns, wanted, tally)
}

/// Goes through the schedules of a sweep over a base schedule, from a machine before its first act,
/// until the run of one of them comes to something else than the outcome that is wanted. A schedule
/// of more items than it may have is left out, and counted. The runs have at most 2^40 acts each.
pub fn sweep(
    alloc: Global,
    machine: &Machine,
    schedule: &Schedule,
    sweeping: Sweeping,
    wanted: &Outcome,
) -> Result<Tally, Stop>
    requires processors { schedule.now.processors ≡ (seen machine.now).shape.processors }
    requires turns { sweeping.turns ≤ 2 ^ 40 }
    requires fresh { (seen machine.now).turns ≡ 0 }
    requires arrays { HasArraysOf (seen machine.now) wanted.now }
    ensures all { IfOk result (AllCome (seen machine.now) sweeping.turns wanted.now (swept_by (seen machine.now) schedule.now.items sweeping) zero_tally) }
    ensures differs { IfErr result (Stops (seen machine.now) sweeping.turns wanted.now (swept_by (seen machine.now) schedule.now.items sweeping)) }
{
    let mut tally = Tally::zero();
    sweep_base(alloc, machine, schedule, sweeping, wanted, &mut tally)?;
    let windows = windows(alloc, machine, schedule, sweeping)?;
    sweep_windows(
        alloc,
        machine,
        schedule,
        sweeping,
        windows.as_slice(),
        wanted,
        &mut tally,
    )?;
    Ok(tally)
}
