//! What is chosen at some paces, by a table.
use ppm_choice::{
    Choice, Idle, Limits, Pace, choose, clear_steps, has_one_run, tells_where_it_parks,
};
use ppm_plan::{Plan, read_plan};
use ppm_step::{Act, Next, Told, Why};
use std::alloc::Global;
use std::process::Abort;
use std::test::Fail;

/// Ten work turns, and three looks in a row.
const LIMITS: Limits = Limits {
    turns: 10,
    looks: 3,
    seed: 1,
    idle: Idle::Leave,
};

/// A step that draws no victim.
const STEP: Choice = Choice::Do(Act::Step { victim: 0 });

fn plan_of(alloc: Global, text: &str) -> Result<Plan, Fail> {
    let Ok(plan) = read_plan(alloc, text.as_bytes(), 3) else {
        return Err(Fail::from("a plan"));
    };
    Ok(plan)
}

/// Fails unless this is chosen at the pace of a processor with so many acts, work turns and looks.
fn chooses(
    rt: &impl Abort,
    plan: &Plan,
    processor: u32,
    (acts, work, looks): (u64, u64, u32),
    (next, due): (Next, bool),
    want: Choice,
) {
    let pace = Pace {
        acts,
        work,
        looks,
        next,
        due,
        ..Pace::first(plan, processor)
    };
    let got = choose(&pace, plan, LIMITS);
    assert!(rt; got == want, "{processor} {acts} {work} {looks}");
}

/// A processor, its acts, work turns and looks, its coming step, whether a victim is due, and the
/// choice, with a plan that kills 0 at its turn 5, so that 1 is the keeper, and has a soft fault of
/// 2 at its turn 7 and of 1 at the last turn there is.
const CHOICES: [(u32, (u64, u64, u32), (Next, bool), Choice); 18] = [
    (0, (0, 0, 0), (Next::Look, false), STEP),
    (0, (5, 0, 0), (Next::Look, false), Choice::Do(Act::Hard)),
    (1, (5, 0, 0), (Next::Look, false), STEP),
    (2, (7, 0, 0), (Next::Work, false), Choice::Do(Act::Soft)),
    (2, (8, 0, 0), (Next::Work, false), STEP),
    // The last turn that a plan can name, and the turns past it.
    (
        1,
        (4_294_967_295, 0, 0),
        (Next::Look, false),
        Choice::Do(Act::Soft),
    ),
    (1, (4_294_967_296, 0, 0), (Next::Look, false), STEP),
    // Work turns are spent, which ends no look, and no fault.
    (2, (20, 9, 0), (Next::Work, false), STEP),
    (
        2,
        (20, 10, 0),
        (Next::Work, false),
        Choice::Do(Act::Quit(Why::Turns)),
    ),
    (2, (20, 10, 0), (Next::Look, false), STEP),
    (2, (7, 10, 0), (Next::Work, false), Choice::Do(Act::Soft)),
    // A victim is due, unless there is a fault.
    (2, (8, 0, 2), (Next::Look, true), Choice::Draw),
    (2, (7, 0, 2), (Next::Look, true), Choice::Do(Act::Soft)),
    // Looks enough, where it would seek work; but the keeper goes on.
    (2, (20, 0, 2), (Next::Seek, false), STEP),
    (2, (20, 0, 3), (Next::Seek, false), Choice::Leave),
    (2, (7, 0, 3), (Next::Seek, false), Choice::Leave),
    (2, (20, 0, 3), (Next::Look, true), Choice::Draw),
    (1, (20, 0, 3), (Next::Seek, false), STEP),
];

#[test]
fn acts_are_chosen(rt: HostRuntime) -> Result<(), Fail> {
    has_one_run();
    tells_where_it_parks();
    let plan = plan_of(rt.alloc(), "0@5h,2@7s,1@4294967295s")?;
    for (processor, done, coming, want) in CHOICES {
        chooses(&rt, &plan, processor, done, coming, want);
    }
    Ok(())
}

/// A processor, its acts and work turns, and how many steps in a row are clear, with the plan of
/// the choices above.
const CLEAR: [(u32, (u64, u64), u64); 12] = [
    (0, (0, 0), 5),
    (0, (3, 2), 2),
    (0, (5, 0), 0),
    (0, (6, 0), 10),
    (1, (0, 4), 6),
    (1, (4_294_967_290, 0), 5),
    (1, (4_294_967_295, 0), 0),
    (1, (4_294_967_296, 3), 7),
    (2, (0, 0), 7),
    (2, (8, 9), 1),
    (2, (20, 10), 0),
    (2, (20, 11), 0),
];

#[test]
fn steps_are_clear(rt: HostRuntime) -> Result<(), Fail> {
    let plan = plan_of(rt.alloc(), "0@5h,2@7s,1@4294967295s")?;
    for (processor, (acts, work), want) in CLEAR {
        let pace = Pace {
            acts,
            work,
            ..Pace::first(&plan, processor)
        };
        let got = clear_steps(&pace, &plan, LIMITS);
        assert!(&rt; got == want, "{processor} {acts} {work}");
    }
    Ok(())
}

/// What is told of a step.
fn told(work: bool) -> Told {
    Told {
        event: None,
        work,
        next: Next::Look,
    }
}

#[test]
fn paces_count(rt: HostRuntime) -> Result<(), Fail> {
    let plan = plan_of(rt.alloc(), "none")?;
    let mut pace = Pace::first(&plan, 2);
    for (work, counts) in [
        (false, (1, 0, 1)),
        (true, (2, 1, 0)),
        (false, (3, 1, 1)),
        (false, (4, 1, 2)),
        (false, (5, 1, 3)),
        (false, (6, 1, 3)),
        (true, (7, 2, 0)),
    ] {
        pace.count(LIMITS, told(work), false);
        assert_eq!(&rt; (pace.acts, pace.work, pace.looks), counts);
    }
    pace.count_steps(LIMITS, 1000, 5, 2, Next::Seek, true);
    let counts = (pace.acts, pace.work, pace.looks, pace.next, pace.due);
    assert!(&rt; counts == (1007, 7, 2, Next::Seek, true));
    pace.count_steps(LIMITS, 9, 0, 9, Next::Look, false);
    assert_eq!(&rt; (pace.acts, pace.work, pace.looks), (1016, 7, 3));
    // Work turns are kept up to their limit, however many there were.
    pace.count_steps(LIMITS, u64::MAX, u64::MAX, 1, Next::Work, false);
    pace.count(LIMITS, told(true), false);
    assert_eq!(&rt; (pace.acts, pace.work, pace.looks), (1 << 32, 10, 0));
    Ok(())
}
