//! A processor stands where its steps in a row have led it. Whoever makes these, on a machine's
//! words or on a table of shared words, holds registers and numbers alone between them, and puts
//! the processor there at their end.
ghost use Rattle.std.specs.Prelude.{◌≡◌, ◌<◌, Some, length, slice_get};
ghost use Rattle.ppm_cells.specs.Restart.{IsRestart};
ghost use Rattle.ppm_code.specs.Capsules.{reached};
ghost use Rattle.ppm_code.specs.declared.code.Capsule.{Capsule};
ghost use Rattle.ppm_step.specs.Facts.{IsEnd, IsHome, IsSeat};
ghost use Rattle.ppm_step.specs.Frames.{Full, ending};
ghost use Rattle.ppm_step.specs.Locals.{IsLocal, standing_of};
ghost use Rattle.ppm_step.specs.Standings.{IsAt, IsBroken, running, rest_is_there};
ghost use Rattle.ppm_step.specs.Stages.{IsStage, rest_at};
ghost use Rattle.ppm_engine.specs.Waiting.{HasReached, stage_of, stands_before, stands_in};

use ppm_cells::{Restart, Shape};
use ppm_code::{Code, End, Reached, Step};
use ppm_step::{Home, Local, Running, Seat, Stage, Stand, location_is_there};

/// Stands before the capsule of a restart.
#[inline(never)]
pub fn wait_at(local: &mut Local, shape: &Shape, code: &Code, place: u32, at: Restart)
    requires carrier { local.old.own < shape.now.processors }
    requires place { place < shape.now.processors }
    requires restart { IsRestart at }
    ensures stands { standing_of shape.now code.now local.new ≡ IsAt place (Some at) }
    ensures holds { IsLocal shape.now code.now local.new }
    ensures own_stays { local.new.own ≡ local.old.own }
{
    let _ = (shape.slots, code.parts().root);
    local.stand = Stand::At {
        place,
        restart: Some(at),
    };
}

/// Stands at broken words.
#[inline(never)]
pub fn wait_broken(local: &mut Local, shape: &Shape, code: &Code, place: u32)
    requires carrier { local.old.own < shape.now.processors }
    requires place { place < shape.now.processors }
    ensures stands { standing_of shape.now code.now local.new ≡ IsBroken place }
    ensures holds { IsLocal shape.now code.now local.new }
    ensures own_stays { local.new.own ≡ local.old.own }
{
    let _ = (shape.slots, code.parts().root);
    local.stand = Stand::Broken { place };
}

/// Stands before an instruction of the capsule with a number.
#[inline(always)]
pub fn wait_midway(
    local: &mut Local,
    shape: &Shape,
    code: &Code,
    seat: Seat,
    home: Home,
    number: u64,
    at: usize,
)
    requires seat { IsSeat shape.now seat }
    requires own { seat.own ≡ local.old.own }
    requires home { IsHome home }
    requires is { (capsule : Capsule) × (slice_get code.now.capsules number ≡ Some capsule) }
    ensures stands { (capsule : Capsule) → slice_get code.now.capsules number ≡ Some capsule
        → standing_of shape.now code.now local.new ≡ stands_before shape.now code.now seat home capsule.instrs at local.old.registers }
    ensures holds { IsLocal shape.now code.now local.new }
    ensures own_stays { local.new.own ≡ local.old.own }
{
    let mut running = running_at(code, seat, home, number, at, Stage::Filled);
    if running.go_on(shape, code, &mut local.registers) {
        local.stand = Stand::Runs(running);
    } else {
        local.stand = Stand::Broken { place: seat.place };
    }
}

/// The capsule with a number, under way.
#[inline(always)]
fn running_at(
    code: &Code,
    seat: Seat,
    home: Home,
    number: u64,
    next: usize,
    stage: Stage,
) -> Running
    requires is { (capsule : Capsule) × (slice_get code.now.capsules number ≡ Some capsule) }
    ensures is { result ≡ record { seat = seat; home = home; capsule = number; next = next; stage = stage } }
    ensures within { number < length code.now.capsules }
{
    let _ = code.parts().capsules.as_slice().len();
    Running {
        seat,
        home,
        capsule: number as u32,
        next,
        stage,
    }
}

/// Stands in the capsule with a number where register work has come to.
#[inline(always)]
pub fn wait_stopped(
    local: &mut Local,
    shape: &Shape,
    code: &Code,
    seat: Seat,
    home: Home,
    number: u64,
    next: usize,
    what: Reached,
)
    requires seat { IsSeat shape.now seat }
    requires own { seat.own ≡ local.old.own }
    requires home { IsHome home }
    requires is { (capsule : Capsule) × (slice_get code.now.capsules number ≡ Some capsule) × HasReached shape.now capsule.instrs next what local.old.registers }
    ensures stands { (capsule : Capsule) → slice_get code.now.capsules number ≡ Some capsule
        → standing_of shape.now code.now local.new ≡ stands_in shape.now code.now seat home (reached shape.now.arrays capsule.instrs next what local.old.registers) }
    ensures holds { IsLocal shape.now code.now local.new }
    ensures own_stays { local.new.own ≡ local.old.own }
{
    let _ = code.parts().root;
    let running = running_at(code, seat, home, number, next, stage_of(what));
    let there = what_is_there(&running, shape, code, what, &local.registers);
    if there {
        local.stand = Stand::Runs(running);
    } else {
        local.stand = Stand::Broken { place: seat.place };
    }
}

/// Stands before a full pool.
#[inline(always)]
pub fn wait_full(local: &mut Local, shape: &Shape, code: &Code, seat: Seat, home: Home, number: u64)
    requires seat { IsSeat shape.now seat }
    requires own { seat.own ≡ local.old.own }
    requires home { IsHome home }
    requires is { (capsule : Capsule) × (slice_get code.now.capsules number ≡ Some capsule) }
    ensures stands { standing_of shape.now code.now local.new ≡ running shape.now seat Full }
    ensures holds { IsLocal shape.now code.now local.new }
    ensures own_stays { local.new.own ≡ local.old.own }
{
    let _ = (shape.slots, code.parts().root);
    local.stand = Stand::Runs(running_at(code, seat, home, number, 0, Stage::Filled));
}

/// Stands before the n-th store of an end.
#[inline(never)]
pub fn wait_ending(
    local: &mut Local,
    shape: &Shape,
    code: &Code,
    seat: Seat,
    home: Home,
    capsule: u32,
    end: End,
    n: usize,
)
    requires seat { IsSeat shape.now seat }
    requires own { seat.own ≡ local.old.own }
    requires home { IsHome home }
    requires capsule { capsule < length code.now.capsules }
    requires end { IsEnd end }
    ensures stands { standing_of shape.now code.now local.new ≡ running shape.now seat (ending code.now home end n) }
    ensures holds { IsLocal shape.now code.now local.new }
    ensures own_stays { local.new.own ≡ local.old.own }
{
    let _ = code.parts().root;
    let under_way = Running {
        seat,
        home,
        capsule,
        next: 0,
        stage: Stage::Ending(end, n),
    };
    if under_way.put_is_there(shape, code, end, n) {
        local.stand = Stand::Runs(under_way);
    } else {
        local.stand = Stand::Broken { place: seat.place };
    }
}

/// The stage of what register work has come to.
#[inline(always)]
fn stage_of(what: Reached) -> Stage
    ensures { result ≡ stage_of what }
{
    match what {
        Reached::Before(step) => Stage::Before(step),
        Reached::AtEnd(end) => Stage::Ending(end, 0),
    }
}

/// Whether what a capsule asks next is there, where register work has come to this.
#[inline(always)]
fn what_is_there(
    running: &Running,
    shape: &Shape,
    code: &Code,
    what: Reached,
    registers: &[u64; 64],
) -> bool
    requires home { IsHome running.now.home }
    requires place { running.now.seat.place < shape.now.processors }
    requires stage { IsStage (stage_of what) }
    ensures { result ≡ rest_is_there shape.now running.now.seat (rest_at shape.now code.now running.now (stage_of what) registers.now) }
{
    let _ = registers.len();
    match what {
        Reached::Before(step) => match step {
            Step::Loads(location, _) | Step::Stores(location, _) => {
                location_is_there(shape, &running.home, location)
            }
            Step::Asks(_) => true,
        },
        Reached::AtEnd(end) => running.put_is_there(shape, code, end, 0),
    }
}
