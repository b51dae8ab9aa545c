//! A processor on its way.
ghost use Rattle.std.specs.Prelude.{◌≡◌, ◌≢◌, true, false};
ghost use Rattle.ppm_ports.specs.Told.{KeepsFront};
ghost use Rattle.ppm_step.specs.Locals.{standing_of};
ghost use Rattle.ppm_step.specs.Standings.{Standing, IsDone};
ghost use Rattle.ppm_step.specs.Told.{place_of};
ghost use Rattle.ppm_plan.specs.Draws.{Drawing};
ghost use Rattle.ppm_plan.specs.Schedules.{Planned};
ghost use Rattle.ppm_choice.specs.Obeying.{Past, is_park};
ghost use Rattle.ppm_choice.specs.Paces.{AreClear, IsPace};
ghost use Rattle.ppm_choice.specs.Tells.{parked};
ghost use Rattle.ppm_table.specs.Run.{IsActAt};
ghost use Rattle.ppm_table.specs.Shown.{IsOf, deeds_of_processor, opening_of};
ghost use Rattle.ppm_threads.specs.Driven.{Begins, Ends};
ghost use Rattle.ppm_threads.specs.Going.{Obeying, Resting, Acting, TraceGrows, HasMoreDeeds, GoesAhead, RunsOn};
ghost use Rattle.ppm_threads.specs.Going.{GaveUp, HasQuit, told_of_deeds, told_so_far, act_result_of};

use crate::act_result::ActResult;
use crate::crew::Crew;
use crate::parking::{IdleParker, park, wake_all};
use crossbeam_utils::Backoff;
use ppm_choice::{Idle, Limits, Pace, clear_steps, is_over, next_act};
use ppm_plan::Victims;
use ppm_ports::Watch;
use ppm_step::{Act, Next, Why};
use ppm_stretch::{is_due, steps, turn};
use ppm_table::{Processor, hear};
use ppm_words::Event;
use std::sync::Wait;

/// How many steps a processor makes at most before it wakes those that have parked, where it has
/// put a job into a deque.
const MOST_UNTOLD: u64 = 1 << 12;

/// Whether a processor that rests parks.
pub(crate) fn is_park(idle: Idle) -> bool
    ensures { result ≡ is_park idle }
{
    match idle {
        Idle::Park => true,
        Idle::Leave => false,
    }
}

/// What is told where a processor parks.
fn parked_at(place: u32) -> Event
    ensures { (stood : Standing) → place ≡ place_of stood → result ≡ parked stood }
{
    Event {
        step: 7,
        place,
        word: 0,
        value: 0,
    }
}

/// How many steps in a row are made before those are woken that have parked: any number, where none
/// parks.
fn most_at_once(limits: Limits) -> u64 {
    if is_park(limits.idle) {
        MOST_UNTOLD
    } else {
        u64::MAX
    }
}

/// Whether something is to be chosen for the coming step, as it looks for a job. For speed alone:
/// either answer is right.
fn is_chosen(pace: &Pace) -> bool {
    pace.due || matches!(pace.next, Next::Seek)
}

/// How many acts surely need no choice, as `clear_steps` says. A plan without faults isn't searched.
fn clear_acts(crew: &Crew, pace: &Pace) -> u64
    ensures { (past : Past) (stood : Standing) → IsPace crew.now.plan.now crew.now.limits past stood pace.now
        → AreClear crew.now.plan.now crew.now.limits pace.now.processor past result }
{
    if crew.plan.items().len() == 0 {
        return crew.limits.turns.saturating_sub(pace.work);
    }
    clear_steps(pace, crew.plan, crew.limits)
}

/// Whether the coming step is made as a turn of its own: something is chosen for it, or acts are
/// counted. Where none are, either answer is right.
fn goes_by_turns(crew: &Crew, pace: &Pace) -> bool
    ensures plain { result ≡ false → crew.now.shared.counted ≡ false }
{
    if crew.shared.counted {
        return true;
    }
    is_chosen(pace)
}

/// Makes steps in a row, as many as surely obey: how many, and none where acts are counted. `None`
/// where the watcher refused one.
fn go_ahead<W: Watch>(
    crew: &Crew,
    processor: &mut Processor,
    pace: &mut Pace,
    watch: &mut W,
) -> Option<u64>
    requires of { IsOf crew.now.shared processor.old }
    ensures of { IsOf crew.now.shared processor.new }
    ensures own { processor.new.local.own ≡ processor.old.local.own }
    ensures keeps { KeepsFront (W.told watch.old) (W.told watch.new) }
    ensures goes { (victims : Drawing)
        → Obeying crew.now.plan.now crew.now.limits (opening_of crew.now.shared) processor.old.local.own (deeds_of_processor processor.old) pace.old victims
        → GoesAhead crew.now.plan.now crew.now.limits (opening_of crew.now.shared) processor.old.local.own (W.told watch.old) (W.told watch.new)
        processor.old.seat.me processor.new.seat.me pace.new victims result }
{
    if goes_by_turns(crew, pace) {
        return Some(0);
    }
    let most = clear_acts(crew, pace).min(most_at_once(crew.limits));
    let row = steps(processor, &crew.shared, most, watch);
    if row.refused {
        wake(crew);
        return None;
    }
    if row.made == 0 {
        return Some(0);
    }
    let next = processor.local.next();
    if row.exchanged || is_over(next) {
        wake(crew);
    }
    let due = is_due(&processor.local);
    pace.count_steps(crew.limits, row.made, row.work, row.looks, next, due);
    Some(row.made)
}

/// Wakes those that have parked, where any may.
fn wake(crew: &Crew) {
    if is_park(crew.limits.idle) {
        wake_all(crew.unparkers.as_slice());
    }
}

/// Whether an act may be one for which others wait: a compare-and-modify, a hard fault or a quit, or
/// the last of its processor; or a soft fault, after which the processor itself may park again
/// without a look, though it was woken to see the end.
fn wakes(event: Event, next: Next) -> bool {
    event.step >= 3 || matches!(next, Next::Done)
}

/// The processor gives up, since its watcher refused, if it is still to take a step.
fn give_way(crew: &Crew, processor: &mut Processor)
    requires of { IsOf crew.now.shared processor.old }
    ensures of { IsOf crew.now.shared processor.new }
    ensures own { processor.new.local.own ≡ processor.old.local.own }
    ensures gave_up { GaveUp (opening_of crew.now.shared) processor.old.local.own (deeds_of_processor processor.old) (deeds_of_processor processor.new) }
{
    processor.turn(&crew.shared, Act::Quit(Why::Watch));
    wake(crew);
}

/// Makes an act: whether the watcher took it. Where it didn't, the processor gives up.
fn make<W: Watch>(
    crew: &Crew,
    processor: &mut Processor,
    pace: &mut Pace,
    watch: &mut W,
    act: Act,
) -> bool
    requires of { IsOf crew.now.shared processor.old }
    requires lives { standing_of crew.now.shared.shape crew.now.shared.code processor.old.local ≢ IsDone }
    requires may { IsActAt crew.now.shared.shape (standing_of crew.now.shared.shape crew.now.shared.code processor.old.local) act }
    ensures of { IsOf crew.now.shared processor.new }
    ensures own { processor.new.local.own ≡ processor.old.local.own }
    ensures keeps { KeepsFront (W.told watch.old) (W.told watch.new) }
    ensures obeys { result ≡ true → (plan : Planned) (past : Past) (victims : Drawing)
        → Acting plan crew.now.limits (opening_of crew.now.shared) processor.old.local.own (deeds_of_processor processor.old) past pace.old victims act
        → Obeying plan crew.now.limits (opening_of crew.now.shared) processor.old.local.own (deeds_of_processor processor.new) pace.new victims
        × TraceGrows (W.told watch.old) (W.told watch.new)
        (told_so_far plan crew.now.limits (opening_of crew.now.shared) processor.old.local.own (deeds_of_processor processor.old) past)
        (told_of_deeds plan crew.now.limits (opening_of crew.now.shared) processor.old.local.own (deeds_of_processor processor.new))
        × HasMoreDeeds 1 processor.old.seat.me processor.new.seat.me }
    ensures quits { result ≡ false → (plan : Planned) (past : Past) (victims : Drawing)
        → Acting plan crew.now.limits (opening_of crew.now.shared) processor.old.local.own (deeds_of_processor processor.old) past pace.old victims act
        → HasQuit plan crew.now.limits (opening_of crew.now.shared) processor.old.local.own (W.told watch.old) (W.told watch.new)
        (told_so_far plan crew.now.limits (opening_of crew.now.shared) processor.old.local.own (deeds_of_processor processor.old) past)
        (deeds_of_processor processor.new) }
{
    let told = turn(processor, &crew.shared, act);
    let due = is_due(&processor.local);
    pace.count(crew.limits, told, due);
    let Some(event) = told.event else {
        unreachable!()
    };
    if wakes(event, told.next) {
        wake(crew);
    }
    if hear(watch, event) {
        return true;
    }
    give_way(crew, processor);
    false
}

/// Where a processor goes after an act that its watcher took, or refused.
fn act_result_of(taken: bool) -> ActResult
    ensures { result ≡ act_result_of taken }
{
    if taken {
        ActResult::More
    } else {
        ActResult::Refused
    }
}

/// A processor that rests leaves; or it parks, and makes its next act after that.
fn rest_first<W: Watch, R: Wait>(
    rt: &R,
    crew: &Crew,
    parker: &IdleParker,
    processor: &mut Processor,
    pace: &mut Pace,
    victims: &mut Victims,
    watch: &mut W,
) -> ActResult
    requires of { IsOf crew.now.shared processor.old }
    requires plan { crew.now.plan.now.processors ≡ crew.now.shared.shape.processors }
    requires resting { Resting crew.now.plan.now crew.now.limits (opening_of crew.now.shared) processor.old.local.own (deeds_of_processor processor.old)
        pace.old victims.old }
    ensures of { IsOf crew.now.shared processor.new }
    ensures own { processor.new.local.own ≡ processor.old.local.own }
    ensures keeps { KeepsFront (W.told watch.old) (W.told watch.new) }
    ensures goes { RunsOn crew.now.plan.now crew.now.limits (opening_of crew.now.shared) processor.old.local.own (W.told watch.old) (W.told watch.new)
        processor.old.seat.me processor.new.seat.me pace.new victims.new result }
{
    if !is_park(crew.limits.idle) {
        return ActResult::Over;
    }
    if !hear(watch, parked_at(processor.local.place())) {
        give_way(crew, processor);
        return ActResult::Refused;
    }
    park(rt, parker);
    pace.rest();
    // Its looks count from 0 again, so with any limit above that it doesn't rest at once.
    let Some(act) = next_act(
        pace,
        victims,
        crew.plan,
        Limits {
            looks: 1,
            ..crew.limits
        },
    ) else {
        unreachable!()
    };
    act_result_of(make(crew, processor, pace, watch, act))
}

/// Makes the next act, if there is one.
fn act<W: Watch, R: Wait>(
    rt: &R,
    crew: &Crew,
    parker: &IdleParker,
    processor: &mut Processor,
    pace: &mut Pace,
    victims: &mut Victims,
    watch: &mut W,
) -> ActResult
    requires of { IsOf crew.now.shared processor.old }
    requires plan { crew.now.plan.now.processors ≡ crew.now.shared.shape.processors }
    requires obeying { Obeying crew.now.plan.now crew.now.limits (opening_of crew.now.shared) processor.old.local.own (deeds_of_processor processor.old)
        pace.old victims.old }
    ensures of { IsOf crew.now.shared processor.new }
    ensures own { processor.new.local.own ≡ processor.old.local.own }
    ensures keeps { KeepsFront (W.told watch.old) (W.told watch.new) }
    ensures goes { RunsOn crew.now.plan.now crew.now.limits (opening_of crew.now.shared) processor.old.local.own (W.told watch.old) (W.told watch.new)
        processor.old.seat.me processor.new.seat.me pace.new victims.new result }
{
    if is_over(pace.next) {
        return ActResult::Over;
    }
    let Some(act) = next_act(pace, victims, crew.plan, crew.limits) else {
        return rest_first(rt, crew, parker, processor, pace, victims, watch);
    };
    act_result_of(make(crew, processor, pace, watch, act))
}

/// Some steps in a row that surely obey, or else the next act.
fn go_on<W: Watch, R: Wait>(
    rt: &R,
    crew: &Crew,
    parker: &IdleParker,
    processor: &mut Processor,
    pace: &mut Pace,
    victims: &mut Victims,
    watch: &mut W,
) -> ActResult
    requires of { IsOf crew.now.shared processor.old }
    requires plan { crew.now.plan.now.processors ≡ crew.now.shared.shape.processors }
    requires obeying { Obeying crew.now.plan.now crew.now.limits (opening_of crew.now.shared) processor.old.local.own (deeds_of_processor processor.old)
        pace.old victims.old }
    ensures of { IsOf crew.now.shared processor.new }
    ensures own { processor.new.local.own ≡ processor.old.local.own }
    ensures keeps { KeepsFront (W.told watch.old) (W.told watch.new) }
    ensures goes { RunsOn crew.now.plan.now crew.now.limits (opening_of crew.now.shared) processor.old.local.own (W.told watch.old) (W.told watch.new)
        processor.old.seat.me processor.new.seat.me pace.new victims.new result }
{
    let Some(made) = go_ahead(crew, processor, pace, watch) else {
        return ActResult::Refused;
    };
    if made == 0 {
        return act(rt, crew, parker, processor, pace, victims, watch);
    }
    ActResult::More
}

/// Lets a processor obey until its acts stop; whether its watcher refused none. It may never return.
pub(crate) fn run<W: Watch, R: Wait>(
    rt: &R,
    crew: &Crew,
    parker: &mut IdleParker,
    processor: &mut Processor,
    watch: &mut W,
) -> bool
    requires begins { Begins crew.now.shared processor.old }
    requires plan { crew.now.plan.now.processors ≡ crew.now.shared.shape.processors }
    ensures { Ends W.told crew.now.plan.now crew.now.limits crew.now.shared result processor.old watch.old processor.new watch.new }
{
    let own = processor.local.own;
    let mut pace = Pace::first(crew.plan, own);
    let mut victims = Victims::new(crew.limits.seed, own, crew.plan.processors());
    let backoff = Backoff::new();
    for _ in rt.forever() {
        match go_on(rt, crew, parker, processor, &mut pace, &mut victims, watch) {
            ActResult::More => stand_back(&pace, &backoff),
            ActResult::Over => return true,
            ActResult::Refused => return false,
        }
    }
    unreachable!()
}

/// Stands back for a moment where there is no work.
fn stand_back(pace: &Pace, backoff: &Backoff) {
    if pace.looks == 0 {
        backoff.reset();
    } else if let Next::Seek = pace.next {
        backoff.snooze();
    }
}
