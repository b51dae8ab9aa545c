//! Two processors under one lock.
ghost use Rattle.std.specs.Prelude.{◌≡◌, ◌≤◌, ◌<◌, IfOk};
ghost use Rattle.std.specs.List.{All};
ghost use Rattle.ppm_core.specs.Situation.{loaded};

use ppm_cells::{Ending, Finish, Shape};
use ppm_choice::{Idle, Limits};
use ppm_code::Code;
use ppm_core::{Act, Image, Machine, Next, Why};
use ppm_layout::image;
use ppm_locked::{BlankHistory, Keeping, Locked, Seat, drive_locked};
use ppm_plan::{Plan, read_plan};
use ppm_test_turns::{SUM, code_of, four_words};
use std::alloc::Global;
use std::marker::{Brand, Send, Sync};
use std::sync::Wait;
use std::sync::ledger::{Blank, Ledger};
use std::test::Fail;
use std::thread;
use std::thread::Threads;

/// A seat whose processor has made its steps: how many of them were told to be work, and whether it
/// is done.
#[derive(Drop)]
struct Back<L: Keeping, E: Ledger> {
    seat: Seat<L, E>,
    work: u64,
    done: bool,
}

/// Makes steps until the processor is done. Where a victim is due the processors go round.
fn end<L: Keeping, E: Ledger, R: Wait>(
    rt: &R,
    locked: &Locked<L, E>,
    seat: Seat<L, E>,
) -> Back<L, E>
    requires { L.first.shape.processors ≡ 2 }
{
    let mut seat = seat;
    let mut work = 0u64;
    for turn in 0..1_000_000u32 {
        let told = locked.turn(rt, &mut seat, Act::Step { victim: turn % 2 });
        if told.work {
            work = work.wrapping_add(1);
        }
        if told.next == Next::Done {
            return Back {
                seat,
                work,
                done: true,
            };
        }
    }
    Back {
        seat,
        work,
        done: false,
    }
}

/// Two threads take a processor each to its end: the machine under the lock, and how many of their
/// steps were told to be work.
fn both_end<L: Keeping + Send + Sync, E: Ledger + Send + Sync, R: Threads + Wait + Sync>(
    rt: &R,
    alloc: Global,
    image: Image,
    code: Code,
    most: u64,
    work: Blank,
    ends: Blank,
    history: BlankHistory,
) -> Result<(Machine, u64), Fail>
    requires first { L.first ≡ loaded image.shape code image.lengths image.words }
    requires most { L.most ≡ most }
    requires work { (work.name ≡ L.name) × (work.parts ≡ L.parts) × (L.all ≡ L.parts) }
    requires ends { (ends.name ≡ E.name) × (ends.parts ≡ E.parts) }
    requires history { history ≡ L.history }
    requires two { (image.shape.processors ≡ 2) × (2 ≤ work.parts) × (2 ≤ ends.parts) }
{
    let made = Locked::<L, E>::load(alloc, image, code, most, work, ends, history);
    let (locked, mut seats) = made.map_err(|_| "memory")?;
    let second = seats.pop().ok_or("a second")?;
    let first = seats.pop().ok_or("a first")?;
    let shared = &locked;
    let (a, b) = thread::join(
        rt,
        move || -> Back<L, E>
            requires { L.first.shape.processors ≡ 2 }
        { end(rt, shared, first) },
        move || -> Back<L, E>
            requires { L.first.shape.processors ≡ 2 }
        { end(rt, shared, second) },
    );
    if !a.done || !b.done {
        return Err("not done")?;
    }
    if !a.seat.has_ended() || !b.seat.has_ended() {
        return Err("not noted as ended")?;
    }
    let back = vec![in alloc; a.seat, b.seat]?;
    Ok((locked.close(back), a.work.wrapping_add(b.work)))
}

/// The image of a code over these words, for two processors.
fn image_of(alloc: Global, code: &Code, words: [i64; 4]) -> Result<Image, Fail>
    requires { All (λ array. array < 1) code.now.arrays }
    ensures { IfOk result (λ image. image.shape.processors ≡ 2) }
{
    let input = four_words(alloc, words)?;
    let shape = Shape::new(2, 128, 4, 4).ok_or("within the limits")?;
    Ok(image(alloc, code, &input, shape, 0).map_err(|_| "memory")?)
}

/// The sum of an array by two threads under a lock, where each processor may make so many work
/// turns.
fn sum_by_two<R: Threads + Wait + Sync>(
    rt: &R,
    alloc: Global,
    most: u64,
) -> Result<(Machine, u64), Fail> {
    let code = code_of(alloc, SUM)?;
    let made = image_of(alloc, &code, [1, 2, 3, 4])?;
    both_end::<Brand, Brand, R>(
        rt,
        alloc,
        made,
        code,
        most,
        Blank::new(3),
        Blank::new(2),
        BlankHistory::new(),
    )
}

#[test]
fn two_sum_under_a_lock(rt: HostRuntime) -> Result<(), Fail> {
    for _ in 0..10u32 {
        let (machine, work) = sum_by_two(&rt, rt.alloc(), 1_000_000)?;
        assert!(&rt; machine.outcome() == Ending::With(Finish::Ended));
        assert_eq!(&rt; machine.arrays(), 1);
        assert_eq!(&rt; machine.work(), work);
        if machine.arrays() == 1 {
            assert_eq!(&rt; machine.array(0), [10, 2, 7, 4].as_slice());
        }
    }
    Ok(())
}

/// Limits that let a run of two processors go on to its end, with so many work turns for each.
fn limits_of(turns: u64) -> Limits {
    Limits {
        turns,
        looks: 64,
        seed: 1,
        idle: Idle::Leave,
    }
}

/// The machine that two processors come to on threads, which obey a plan for two.
fn two_obey<L: Keeping + Send + Sync, E: Ledger + Send + Sync, R: Threads + Wait + Sync>(
    rt: &R,
    alloc: Global,
    image: Image,
    code: Code,
    plan: &Plan,
    most: u64,
    work: Blank,
    ends: Blank,
    history: BlankHistory,
) -> Result<Machine, Fail>
    requires first { L.first ≡ loaded image.shape code image.lengths image.words }
    requires most { L.most ≡ most }
    requires work { (work.name ≡ L.name) × (work.parts ≡ L.parts) × (L.all ≡ L.parts) }
    requires ends { (ends.name ≡ E.name) × (ends.parts ≡ E.parts) }
    requires history { history ≡ L.history }
    requires two { (image.shape.processors ≡ 2) × (2 ≤ work.parts) × (2 ≤ ends.parts) }
    requires plan { plan.now.processors ≡ 2 }
{
    let made = Locked::<L, E>::load(alloc, image, code, most, work, ends, history);
    let (locked, seats) = made.map_err(|_| "memory")?;
    let driven = drive_locked(rt, locked, seats, plan, limits_of(1_000_000));
    Ok(driven.map_err(|_| "memory")?)
}

/// The sum of an array by two processors under a lock that obey a plan, where each may make so many
/// work turns.
fn sum_by_plan<R: Threads + Wait + Sync>(
    rt: &R,
    alloc: Global,
    faults: &str,
    most: u64,
) -> Result<Machine, Fail> {
    let plan = read_plan(alloc, faults.as_bytes(), 2).map_err(|_| "no plan")?;
    let code = code_of(alloc, SUM)?;
    let made = image_of(alloc, &code, [1, 2, 3, 4])?;
    two_obey::<Brand, Brand, R>(
        rt,
        alloc,
        made,
        code,
        &plan,
        most,
        Blank::new(2),
        Blank::new(2),
        BlankHistory::new(),
    )
}

#[test]
fn two_obey_plans_under_a_lock(rt: HostRuntime) -> Result<(), Fail> {
    for faults in ["none", "0@3s,1@5s,0@40s", "1@9h", "0@7h,1@2s"] {
        let machine = sum_by_plan(&rt, rt.alloc(), faults, 1_000_000)?;
        assert!(&rt;
            machine.outcome() == Ending::With(Finish::Ended),
            "{faults}"
        );
        assert_eq!(&rt; machine.arrays(), 1);
        if machine.arrays() == 1 {
            assert_eq!(&rt; machine.array(0), [10, 2, 7, 4].as_slice());
        }
    }
    Ok(())
}

#[test]
fn the_lock_has_a_limit_of_its_own(rt: HostRuntime) -> Result<(), Fail> {
    let machine = sum_by_plan(&rt, rt.alloc(), "none", 0)?;
    assert!(&rt; matches!(machine.outcome(), Ending::With(Finish::OutOfTurns { .. })));
    assert_eq!(&rt; machine.work(), 0);
    Ok(())
}
