//! Whether the list of a watcher is what a processor is told that obeys.
ghost use Rattle.std.specs.Prelude.{◌≡◌};
ghost use Rattle.ppm_step.specs.Locals.{IsLocal};

use ppm_cells::Shape;
use ppm_choice::{Choice, Idle, Limits, Pace, choose, is_over, next_act};
use ppm_code::Code;
use ppm_plan::{Plan, Victims};
use ppm_step::{Act, Local, Next, Told, Want};
use ppm_stretch::is_due;
use ppm_table::step_event;
use ppm_words::Event;

/// Makes an act that an event tells, with what it found: whether it is the event of that act.
fn makes(local: &mut Local, shape: &Shape, code: &Code, act: Act, event: Event) -> bool
    requires local { IsLocal shape.now code.now local.old }
    ensures local { IsLocal shape.now code.now local.new }
{
    let _ = code.parts().root;
    let place = local.place();
    match act {
        Act::Step { victim } => {
            if victim >= shape.processors {
                return false;
            }
            let want = local.want(shape, code, victim);
            let found = if let Want::Loads(_) = want {
                event.value
            } else {
                0
            };
            local.observe(shape, code, victim, found);
            step_event(place, want, found) == event
        }
        Act::Soft => {
            local.fault();
            event.step == 4 && event.place == place
        }
        Act::Hard => {
            local.die();
            event.step == 5 && event.place == place
        }
        Act::Quit(_) => {
            local.fault();
            event.step == 6 && event.place == place
        }
    }
}

/// Makes the act that comes next, or parks: whether the event tells of that.
fn obeys_once(
    local: &mut Local,
    pace: &mut Pace,
    victims: &mut Victims,
    shape: &Shape,
    code: &Code,
    plan: &Plan,
    limits: Limits,
    event: Event,
) -> bool
    requires local { IsLocal shape.now code.now local.old }
    ensures local { IsLocal shape.now code.now local.new }
{
    if is_over(pace.next) {
        return false;
    }
    if event.step == 7 {
        let rests = matches!(choose(pace, plan, limits), Choice::Leave);
        pace.rest();
        return rests && matches!(limits.idle, Idle::Park) && event.place == local.place();
    }
    let Some(act) = next_act(pace, victims, plan, limits) else {
        return false;
    };
    let work = matches!(act, Act::Step { .. }) && matches!(pace.next, Next::Work);
    let same = makes(local, shape, code, act, event);
    let told = Told {
        event: Some(event),
        work,
        next: local.next(),
    };
    pace.count(limits, told, is_due(local));
    same
}

/// Whether the acts of a processor stop here.
fn stops(pace: &Pace, plan: &Plan, limits: Limits) -> bool {
    if is_over(pace.next) {
        return true;
    }
    matches!(limits.idle, Idle::Leave) && matches!(choose(pace, plan, limits), Choice::Leave)
}

/// Goes by these events, as a processor that obeys from its first act on: its pace after them.
/// `None` where one of them is not what it is told.
fn pace_behind(
    shape: &Shape,
    code: &Code,
    plan: &Plan,
    limits: Limits,
    own: u32,
    events: &[Event],
) -> Option<Pace> {
    if own >= shape.processors || plan.processors() != shape.processors {
        return None;
    }
    let mut local = Local::lost(own);
    let mut pace = Pace::first(plan, own);
    let mut victims = Victims::new(limits.seed, own, plan.processors());
    for event in events {
        if !obeys_once(
            &mut local,
            &mut pace,
            &mut victims,
            shape,
            code,
            plan,
            limits,
            *event,
        ) {
            return None;
        }
    }
    Some(pace)
}

/// Whether these events are what a processor is told that obeys, from its first act until its acts
/// stop, whatever the others do; or, where it was stopped before, a front of that.
pub fn obeys(
    shape: &Shape,
    code: &Code,
    plan: &Plan,
    limits: Limits,
    own: u32,
    events: &[Event],
    stopped: bool,
) -> bool {
    match pace_behind(shape, code, plan, limits, own, events) {
        Some(pace) => stopped || stops(&pace, plan, limits),
        None => false,
    }
}
