//! The threads.
ghost use Rattle.std.specs.Prelude.{◌≡◌, ◌<◌, ◌≤◌, ◌⊎◌, ◌&&◌, ◌∷◌, [], IfErr, IfOk, true, vec_len, length};
ghost use Rattle.std.specs.Thread.{IsSync, IsSend};
ghost use Rattle.ppm_table.specs.Shown.{AreNewOf, opening_of};
ghost use Rattle.ppm_threads.specs.Driven.{Begins, AllBegin, AllEnd, AllKeep, OthersStay, Driven, DrivenCounted, WasRefused, HasFinished};

use crate::crew::Crew;
use crate::going::{is_park, run};
use crate::parking::{IdleParker, parkers, unparkers};
use ppm_choice::Limits;
use ppm_plan::Plan;
use ppm_ports::Watch;
use ppm_table::{ActCounts, Closed, Processor, Shared, total_counts};
use ppm_words::NoMemory;
use std::alloc::Global;
use std::sync::Wait;
use std::thread::{Threads, join_mut};

/// Lets one of several processors run: whether its watcher refused nothing.
fn run_one<W: Watch, R: Wait>(
    rt: &R,
    crew: &Crew,
    processor: &mut Processor,
    parker: &mut IdleParker,
    watch: &mut W,
) -> bool
    requires begins { Begins crew.now.shared processor.old }
    requires plan { crew.now.plan.now.processors ≡ crew.now.shared.shape.processors }
    ensures { AllEnd W.told crew.now.plan.now crew.now.limits crew.now.shared result (processor.old ∷ []) (watch.old ∷ []) (processor.new ∷ []) (watch.new ∷ []) }
{
    run(rt, crew, parker, processor, watch)
}

/// Whether both hold.
fn both(x: bool, y: bool) -> bool
    ensures { result ≡ (x && y) }
{
    x && y
}

/// Runs each of these processors on a thread of its own: whether no watcher refused.
#[cycle(halves)]
fn run_all<W: Watch, R: Threads + Wait + Sync>(
    rt: &R,
    crew: &Crew,
    processors: &mut [Processor],
    parkers: &mut [IdleParker],
    watch: &mut [W],
) -> bool
    requires begin { AllBegin crew.now.shared processors.old }
    requires same { (length processors.old ≡ length watch.old)
        × (length processors.old ≡ length parkers.old) }
    requires plan { crew.now.plan.now.processors ≡ crew.now.shared.shape.processors }
    ensures { AllEnd W.told crew.now.plan.now crew.now.limits crew.now.shared result processors.old watch.old processors.new watch.new }
{
    if processors.is_empty() {
        return true;
    }
    if processors.len() == 1 {
        return run_one(rt, crew, &mut processors[0], &mut parkers[0], &mut watch[0]);
    }
    let half = processors.len() / 2;
    let (a, b) = processors.split_at_mut(half);
    let (p, q) = parkers.split_at_mut(half);
    let (u, v) = watch.split_at_mut(half);
    let (x, y) = both_halves(rt, crew, a, p, u, b, q, v);
    both(x, y)
}

/// Runs the processors of two parts side by side. Where the system makes no thread, one part runs after the other.
/// Where idle processors park, the keeper's part comes first: without the keeper the others would park for ever.
/// Where they leave, the keeper's part comes last: each of the others works off what its place has and leaves, and
/// the keeper, which never leaves, does what is left.
#[cycle(halves)]
fn both_halves<W: Watch, R: Threads + Wait + Sync>(
    rt: &R,
    crew: &Crew,
    a: &mut [Processor],
    p: &mut [IdleParker],
    u: &mut [W],
    b: &mut [Processor],
    q: &mut [IdleParker],
    v: &mut [W],
) -> (bool, bool)
    requires front { AllBegin crew.now.shared a.old × (length a.old ≡ length u.old) × (length a.old ≡ length p.old)
        × (0 < length a.old) }
    requires back { AllBegin crew.now.shared b.old × (length b.old ≡ length v.old) × (length b.old ≡ length q.old)
        × (0 < length b.old) }
    requires plan { crew.now.plan.now.processors ≡ crew.now.shared.shape.processors }
    ensures front { AllEnd W.told crew.now.plan.now crew.now.limits crew.now.shared result.0 a.old u.old a.new u.new }
    ensures back { AllEnd W.told crew.now.plan.now crew.now.limits crew.now.shared result.1 b.old v.old b.new v.new }
{
    let keeper_is_in_front = crew.plan.keeper() < b[0].local.own;
    let mut front = || -> bool
        requires { IsSync R.row × IsSend W.row × AllBegin crew.now.shared a.now × (length a.now ≡ length u.now)
            × (length a.now ≡ length p.now) × (crew.now.plan.now.processors ≡ crew.now.shared.shape.processors) }
        ensures { AllEnd W.told crew.entry.now.plan.now crew.entry.now.limits crew.entry.now.shared result a.entry.now u.entry.now
            a.exit.now u.exit.now }
    { run_all(rt, crew, a, p, u) };
    let mut back = || -> bool
        requires { IsSync R.row × IsSend W.row × AllBegin crew.now.shared b.now × (length b.now ≡ length v.now)
            × (length b.now ≡ length q.now) × (crew.now.plan.now.processors ≡ crew.now.shared.shape.processors) }
        ensures { AllEnd W.told crew.entry.now.plan.now crew.entry.now.limits crew.entry.now.shared result b.entry.now v.entry.now
            b.exit.now v.exit.now }
    { run_all(rt, crew, b, q, v) };
    // The second of them begins at once, on this thread.
    if keeper_is_in_front == is_park(crew.limits.idle) {
        let (y, x) = join_mut(rt, &mut back, &mut front);
        return (x, y);
    }
    join_mut(rt, &mut front, &mut back)
}

/// Runs the crew over vectors; that of the watchers may be longer than that of the processors.
fn run_over<W: Watch, R: Threads + Wait + Sync>(
    rt: &R,
    crew: &Crew,
    processors: &mut Vec<Processor>,
    parkers: &mut Vec<IdleParker>,
    watch: &mut Vec<W>,
) -> bool
    requires begin { AllBegin crew.now.shared processors.old.items }
    requires parkers { vec_len processors.old ≡ vec_len parkers.old }
    requires watchers { vec_len processors.old ≤ vec_len watch.old }
    requires plan { crew.now.plan.now.processors ≡ crew.now.shared.shape.processors }
    ensures lengths { (vec_len processors.new ≡ vec_len processors.old)
        × (vec_len watch.new ≡ vec_len watch.old) }
    ensures ends { AllEnd W.told crew.now.plan.now crew.now.limits crew.now.shared result processors.old.items watch.old.items
        processors.new.items watch.new.items }
{
    let (mine, _) = watch.as_mut_slice().split_at_mut(processors.len());
    run_all(
        rt,
        crew,
        processors.as_mut_slice(),
        parkers.as_mut_slice(),
        mine,
    )
}

/// Runs each processor of a table as `drive` does, and tells what was counted: the acts of all of
/// them together. A table that was loaded to count has this of its run; each step is then a turn of
/// its own, and none is made in a row. Of another table it says nothing.
pub fn drive_counted<W: Watch, R: Threads + Wait + Sync>(
    rt: &R,
    alloc: Global,
    shared: Shared,
    mut processors: Vec<Processor>,
    plan: &Plan,
    limits: Limits,
    watch: &mut Vec<W>,
) -> Result<(Closed, ActCounts), NoMemory>
    requires processors { AreNewOf shared processors.items }
    requires plan { plan.now.processors ≡ shared.shape.processors }
    requires watchers { vec_len processors ≤ vec_len watch.old }

    // Each list keeps what it had before, and the watchers after the last processor stay, whatever
    // the answer is.
    ensures kept { (vec_len watch.new ≡ vec_len watch.old)
        × AllKeep W.told watch.old.items watch.new.items }
    ensures others { OthersStay shared.shape.processors watch.old.items watch.new.items }

    ensures sizes { IfOk result (λ r. (r.0.shape ≡ shared.shape) × (r.0.array_lengths ≡ shared.lengths)) }
    ensures run { IfOk result (λ r. Driven W.told plan.now limits (opening_of shared) r.0.words watch.old.items watch.new.items) }
    ensures finish { IfOk result (λ r. HasFinished (opening_of shared) r.0.words) }

    // What was counted is that of this run, where the table's processors count.
    ensures counted { shared.counted ≡ true → IfOk result (λ r. DrivenCounted W.told plan.now limits (opening_of shared) r.0.words r.1
        watch.old.items watch.new.items) }

    // Where memory was wanting, nobody was told anything; or a watcher refused.
    ensures refused { IfErr result (λ _. (watch.new.items ≡ watch.old.items)
        ⊎ WasRefused W.told plan.now limits (opening_of shared) watch.old.items watch.new.items) }
{
    let _ = (shared.code.parts().root, plan.keeper());
    let mut sleepers = parkers(alloc, processors.len())?;
    let wakers = unparkers(alloc, &sleepers)?;
    let crew = Crew {
        shared,
        plan,
        limits,
        unparkers: wakers,
    };
    let taken = run_over(rt, &crew, &mut processors, &mut sleepers, watch);
    let Crew {
        shared,
        plan: _,
        limits: _,
        unparkers: _,
    } = crew;
    let counts = total_counts(&processors);
    let closed = shared.close(processors);
    if !taken {
        return Err(NoMemory);
    }
    Ok((closed, counts))
}

/// Runs each processor of a table on a thread of its own until it is done, or leaves where the
/// limits say so, and closes the table. There is a watcher for each processor, and the plan is for
/// as many. `Err` where memory is refused, or by a watcher, whose processor quits then. It may never
/// return.
pub fn drive<W: Watch, R: Threads + Wait + Sync>(
    rt: &R,
    alloc: Global,
    shared: Shared,
    processors: Vec<Processor>,
    plan: &Plan,
    limits: Limits,
    watch: &mut Vec<W>,
) -> Result<Closed, NoMemory>
    requires processors { AreNewOf shared processors.items }
    requires plan { plan.now.processors ≡ shared.shape.processors }
    requires watchers { vec_len processors ≤ vec_len watch.old }

    // Each list keeps what it had before, and the watchers after the last processor stay, whatever
    // the answer is.
    ensures kept { (vec_len watch.new ≡ vec_len watch.old)
        × AllKeep W.told watch.old.items watch.new.items }
    ensures others { OthersStay shared.shape.processors watch.old.items watch.new.items }

    ensures sizes { IfOk result (λ c. (c.shape ≡ shared.shape) × (c.array_lengths ≡ shared.lengths)) }
    ensures run { IfOk result (λ c. Driven W.told plan.now limits (opening_of shared) c.words watch.old.items watch.new.items) }
    ensures finish { IfOk result (λ c. HasFinished (opening_of shared) c.words) }

    // Where memory was wanting, nobody was told anything; or a watcher refused.
    ensures refused { IfErr result (λ _. (watch.new.items ≡ watch.old.items)
        ⊎ WasRefused W.told plan.now limits (opening_of shared) watch.old.items watch.new.items) }
{
    let (closed, _) = drive_counted(rt, alloc, shared, processors, plan, limits, watch)?;
    Ok(closed)
}
