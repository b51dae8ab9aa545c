//! Seats on threads.
ghost use Rattle.std.specs.Prelude.{◌≡◌, ◌≢◌, ◌==◌, ◌<◌, true, false, IfOk, map, vec_len};
ghost use Rattle.std.specs.List.{range_with_len};
ghost use Rattle.ppm_cells.specs.Finish.{finish_word};
ghost use Rattle.ppm_cells.specs.declared.finish.Finish.TheVariants.{Stopped};
ghost use Rattle.ppm_core.specs.Machine.{seen};
ghost use Rattle.ppm_core.specs.Situation.{finish_in};
ghost use Rattle.ppm_plan.specs.Forms.{plan_form};
ghost use Rattle.ppm_plan.specs.Refusals.{IsKeeper};
ghost use Rattle.ppm_step.specs.Among.{IsActAmong};
ghost use Rattle.ppm_locked.specs.Driven.{KeeperHasEnded};
ghost use Rattle.ppm_locked.specs.Held.{HasRun, unused};

use crate::held::Keeping;
use crate::locked::Locked;
use crate::seat::Seat;
use crossbeam_utils::Backoff;
use ppm_cells::Finish;
use ppm_choice::{Limits, Pace, is_over, next_act};
use ppm_core::{Act, Machine, Next};
use ppm_plan::{Plan, Victims};
use ppm_words::NoMemory;
use std::marker::{Send, Sync};
use std::sync::Wait;
use std::sync::ledger::Ledger;
use std::thread::{Threads, map_vec};

/// Whether a processor whose run goes on makes no act any more: it is dead, or it leaves. The keeper
/// does neither.
fn leaves(is_keeper: bool, next: Next, act: Option<Act>) -> bool
    ensures { result ≡ true → is_keeper ≡ false }
{
    if is_keeper {
        return false;
    }
    if is_over(next) {
        return true;
    }
    act.is_none()
}

/// The act, where its victim is a processor; else a step with the first one. Of a victim that is
/// drawn nothing is known without where its processor stands, which the lock keeps.
fn among(act: Option<Act>, processors: u32) -> Act
    requires { 0 < processors }
    ensures { IsActAmong processors result }
{
    let first = Act::Step { victim: 0 };
    let Some(act) = act else {
        return first;
    };
    match act {
        Act::Step { victim } => if victim < processors {
            Act::Step { victim }
        } else {
            first
        },
        Act::Soft => Act::Soft,
        Act::Hard => Act::Hard,
        Act::Quit(why) => Act::Quit(why),
    }
}

/// Stands back for a moment where there is no work.
fn stand_back(pace: &Pace, backoff: &Backoff) {
    if pace.looks == 0 {
        backoff.reset();
    } else if let Next::Seek = pace.next {
        backoff.snooze();
    }
}

/// Whether the plan keeps a processor.
fn keeps(plan: &Plan, processor: u32) -> bool
    ensures { IsKeeper plan_form plan.now.items processor → result ≡ true }
{
    plan.keeper() == processor
}

/// Lets the processor of a seat obey until the run has ended, or until it is dead or leaves; the
/// plan's keeper does neither. It may never return.
fn run_seat<L: Keeping, E: Ledger, R: Wait>(
    rt: &R,
    locked: &Locked<L, E>,
    plan: &Plan,
    limits: Limits,
    seat: Seat<L, E>,
) -> Seat<L, E>
    requires { plan.now.processors ≡ L.first.shape.processors }
    ensures { IsKeeper plan_form plan.now.items seat.processor → result.has_ended ≡ true }
{
    let mut seat = seat;
    let own = seat.processor();
    let processors = plan.processors();
    let is_keeper = keeps(plan, own);
    let mut pace = Pace::first(plan, own);
    let mut victims = Victims::new(limits.seed, own, processors);
    let backoff = Backoff::new();
    for _ in rt.forever() {
        if seat.has_ended() {
            return seat;
        }
        let act = next_act(&pace, &mut victims, plan, limits);
        if leaves(is_keeper, pace.next, act) {
            return seat;
        }
        let told = locked.turn(rt, &mut seat, among(act, processors));
        pace.count(limits, told, seat.is_due());
        stand_back(&pace, &backoff);
    }
    unreachable!()
}

/// Runs the processor of each seat on a thread of its own.
fn run_seats<L: Keeping + Send + Sync, E: Ledger + Send + Sync, R: Threads + Wait + Sync>(
    rt: &R,
    locked: &Locked<L, E>,
    plan: &Plan,
    limits: Limits,
    seats: Vec<Seat<L, E>>,
) -> Result<Vec<Seat<L, E>>, NoMemory>
    requires { plan.now.processors ≡ L.first.shape.processors }
    ensures len { IfOk result (λ back. vec_len back ≡ vec_len seats) }
    ensures keeper { IfOk result (λ back. KeeperHasEnded plan.now.items seats.items back.items) }
{
    let one = |seat: Seat<L, E>| -> Seat<L, E>
        requires { plan.now.processors ≡ L.first.shape.processors }
        ensures { IsKeeper plan_form plan.entry.now.items seat.processor → result.has_ended ≡ true }
    { run_seat(rt, locked, plan, limits, seat) };
    Ok(map_vec(rt, seats, &one)?)
}

/// Runs the processors of a lock on threads: the machine once all have left.
fn drive_seats<L: Keeping + Send + Sync, E: Ledger + Send + Sync, R: Threads + Wait + Sync>(
    rt: &R,
    locked: Locked<L, E>,
    seats: Vec<Seat<L, E>>,
    plan: &Plan,
    limits: Limits,
) -> Result<Machine, NoMemory>
    requires seats { seats.items ≡ map unused (range_with_len 0 L.first.shape.processors) }
    requires ledger { L.all ≡ L.parts }
    requires plan { plan.now.processors ≡ L.first.shape.processors }
    ensures run { IfOk result (λ machine. HasRun L.first L.most (seen machine)) }
    ensures finish { IfOk result (λ machine. finish_in (seen machine) ≢ 0) }
{
    let _ = plan.keeper();
    let back = run_seats(rt, &locked, plan, limits, seats)?;
    Ok(locked.close(back))
}

/// Whether a finish word says that a watcher has refused.
fn says_stopped(finish: u64) -> bool
    ensures { result ≡ (finish == finish_word Stopped) }
{
    finish == Finish::Stopped.pack()
}

/// Runs the processors of a lock on threads, one for each where the system makes so many, until the
/// run has ended: the machine under the lock. Each processor makes the acts that `next_act` chooses
/// for its pace, by the plan and the limits. `limits.turns` below the lock's own limit of work turns
/// has no effect: the quit that it asks for is made where the lock's limit is spent alone, and
/// before that a step is made in its place. A processor that rests leaves, whatever `limits.idle`
/// says. The seats are those of `load`, none of which has made a turn, and the plan is for as many
/// processors. Some run has come to the machine from the opening. Its finish word isn't 0, nor the
/// one of a run that a watcher has stopped. `Err` where memory is refused, and for that word: nobody
/// watches here. It may never return.
pub fn drive_locked<L: Keeping + Send + Sync, E: Ledger + Send + Sync, R: Threads + Wait + Sync>(
    rt: &R,
    locked: Locked<L, E>,
    seats: Vec<Seat<L, E>>,
    plan: &Plan,
    limits: Limits,
) -> Result<Machine, NoMemory>
    requires seats { seats.items ≡ map unused (range_with_len 0 L.first.shape.processors) }
    requires ledger { L.all ≡ L.parts }
    requires plan { plan.now.processors ≡ L.first.shape.processors }
    ensures run { IfOk result (λ machine. HasRun L.first L.most (seen machine)) }
    ensures finish { IfOk result (λ machine. finish_in (seen machine) ≢ 0) }
    ensures unrefused { IfOk result (λ machine. (finish_in (seen machine) == finish_word Stopped) ≡ false) }
{
    let machine = drive_seats(rt, locked, seats, plan, limits)?;
    if says_stopped(machine.finish_word()) {
        return Err(NoMemory);
    }
    Ok(machine)
}
