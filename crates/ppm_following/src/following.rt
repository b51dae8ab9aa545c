//! Follows a schedule.
ghost use Rattle.std.specs.Prelude.{◌≡◌, ◌<◌, ◌≤◌, ◌^◌, ◌++◌, [], ◌∷◌, IsTrue, ◌↔◌, length};
ghost use Rattle.std.specs.Prelude.{replicate, nat_lt, true, false, map, slice_index};
ghost use Rattle.std.specs.List.{All};
ghost use Rattle.ppm_core.specs.Acts.{is_done_at, IsTurnAmong};
ghost use Rattle.ppm_plan.specs.Schedules.{IsActAmong, IsItemAmong, IsVictimAmong};
ghost use Rattle.ppm_core.specs.Machine.{seen};
ghost use Rattle.ppm_step.specs.State.{stand_of};
ghost use Rattle.ppm_choice.specs.Course.{Due, Listed, InRound};
ghost use Rattle.ppm_choice.specs.Course.{processor_of, victim_at, victim_of, turn_of};
ghost use Rattle.ppm_choice.specs.Course.{loads_behind, is_open, is_made};
ghost use Rattle.ppm_choice.specs.Schedules.{dues_of, listed, round, rounds};
ghost use Rattle.ppm_following.specs.Followed.{followed};
ghost use Rattle.ppm_following.specs.Following.{course, IsReady, IsStepOf, Does};

use ppm_choice::act_of_fault;
use ppm_core::Machine;
use ppm_plan::{Schedule, ScheduleItem, ScheduledAct};
use ppm_step::{Act, Turn};

/// What is counted along a run: how many holder words each processor has loaded as it sought work,
/// and how many acts are left.
#[derive(Clone, Copy, Debug, PartialEq, Eq)]
pub struct Way {
    pub loads: [u64; 64],
    pub left: u64,
}

impl Way {
    ghost use Rattle.std.specs.Prelude.{◌≡◌, replicate};

    /// That of a run before its first act, which may have so many.
    pub fn first(turns: u64) -> Way
        ensures { result ≡ record { loads = replicate 64 0; left = turns } }
    {
        Way {
            loads: [0; 64],
            left: turns,
        }
    }
}

/// The processor of an act.
pub fn processor_of(act: ScheduledAct) -> u32
    ensures { result ≡ processor_of act }
{
    match act {
        ScheduledAct::Step { processor, .. } | ScheduledAct::Fails { processor, .. } => processor,
    }
}

/// The victim at a processor's holder load number `j`, from 0.
fn victim_at(processors: u32, processor: u32, j: u64, stated: Option<u32>) -> u32
    requires there { processor < processors }
    requires few { j < 2 ^ 41 }
    requires among { IsVictimAmong processors stated }
    ensures below { result < processors }
    ensures value { result ≡ victim_at processors processor j stated }
{
    match stated {
        Some(victim) => victim,
        None => ((u64::from(processor) + 1 + j) % u64::from(processors)) as u32,
    }
}

/// The turn that an act is. A step that loads a holder word as it seeks work is counted.
#[inline(always)]
pub fn turn_of(machine: &Machine, way: &mut Way, act: ScheduledAct) -> Turn
    requires among { IsActAmong (seen machine.now).shape.processors act }
    requires ready { IsReady (seen machine.now) way.old }
    ensures turn { result
        ≡ turn_of (seen machine.now).shape.processors (course (seen machine.now) way.old) act }
    ensures loads { way.new.loads ≡ loads_behind (course (seen machine.now) way.old) act }
    ensures left { way.new.left ≡ way.old.left }
    ensures is_among { IsTurnAmong (seen machine.now).shape.processors result }
{
    match act {
        ScheduledAct::Step { processor, victim } => {
            let mut at = 0;
            if machine.seeks_holder(processor) {
                let j = way.loads[processor as usize];
                at = victim_at(machine.processors(), processor, j, victim);
                way.loads[processor as usize] = j + 1;
            }
            Turn {
                processor,
                act: Act::Step { victim: at },
            }
        }
        ScheduledAct::Fails { processor, fault } => Turn {
            processor,
            act: act_of_fault(fault),
        },
    }
}

/// Makes an act, where one is left and its processor isn't done.
#[inline(always)]
pub fn make(machine: &mut Machine, way: &mut Way, act: ScheduledAct)
    requires among { IsActAmong (seen machine.old).shape.processors act }
    requires ready { IsReady (seen machine.old) way.old }
    requires left { 0 < way.old.left }
    requires lives { is_done_at (stand_of (seen machine.old).state (processor_of act)) ≡ false }
    ensures does { Does (Listed act ∷ []) (seen machine.old) way.old (seen machine.new) way.new }
    ensures ready { IsReady (seen machine.new) way.new }
{
    let turn = turn_of(machine, way, act);
    machine.turn(turn);
    way.left -= 1;
}

/// Makes steps of a processor in a row, so many at most: as many as the machine makes at once, for
/// none of which a victim is due. It tells how many.
fn step_ahead(machine: &mut Machine, way: &mut Way, processor: u32, most: u64) -> u64
    requires among { processor < (seen machine.old).shape.processors }
    requires ready { IsReady (seen machine.old) way.old }
    ensures few { result ≤ most }
    ensures does { (due : Due) → IsStepOf processor due
        → Does (replicate result due) (seen machine.old) way.old (seen machine.new) way.new }
    ensures ready { IsReady (seen machine.new) way.new }
{
    let made = machine.steps(processor, most.min(way.left));
    way.left -= made;
    made
}

/// Makes an act of the list in a row, so often at most: as often as the machine makes it at once.
/// It tells how often; one that is to be made once is left to a turn.
fn act_ahead(machine: &mut Machine, way: &mut Way, act: ScheduledAct, most: u32) -> u32
    requires among { IsActAmong (seen machine.old).shape.processors act }
    requires ready { IsReady (seen machine.old) way.old }
    ensures few { result ≤ most }
    ensures does { Does (replicate result (Listed act)) (seen machine.old) way.old (seen machine.new) way.new }
    ensures ready { IsReady (seen machine.new) way.new }
{
    if most < 2 {
        return 0;
    }
    match act {
        ScheduledAct::Step { processor, .. } => {
            step_ahead(machine, way, processor, u64::from(most)) as u32
        }
        ScheduledAct::Fails { .. } => 0,
    }
}

/// Makes an act of the list so often, if its processor isn't done.
fn repeat(machine: &mut Machine, way: &mut Way, act: ScheduledAct, times: u32)
    requires among { IsActAmong (seen machine.old).shape.processors act }
    requires ready { IsReady (seen machine.old) way.old }
    ensures does { Does (replicate times (Listed act)) (seen machine.old) way.old (seen machine.new) way.new }
    ensures ready { IsReady (seen machine.new) way.new }
{
    let processor = processor_of(act);
    let mut left = times;
    while left > 0 {
        // What the machine makes at once, and then one more.
        left -= act_ahead(machine, way, act, left);
        if left == 0 {
            return;
        }
        if way.left == 0 {
            return;
        }
        if machine.is_done(processor) {
            return;
        }
        make(machine, way, act);
        left -= 1;
    }
}

/// Makes the acts of a list.
fn list(machine: &mut Machine, way: &mut Way, items: &[ScheduleItem])
    requires among { All (IsItemAmong (seen machine.old).shape.processors) items.now }
    requires ready { IsReady (seen machine.old) way.old }
    ensures does { Does (listed items.now) (seen machine.old) way.old (seen machine.new) way.new }
    ensures ready { IsReady (seen machine.new) way.new }
{
    let mut left = items;
    while let [item, rest @ ..] = left {
        repeat(machine, way, item.act, item.times);
        left = rest;
    }
}

/// Makes the step of a processor after the list, if it isn't done.
#[inline(never)]
fn step(machine: &mut Machine, way: &mut Way, processor: u32)
    requires among { processor < (seen machine.old).shape.processors }
    requires ready { IsReady (seen machine.old) way.old }
    ensures does { Does (InRound processor
        ∷ []) (seen machine.old) way.old (seen machine.new) way.new }
    ensures ready { IsReady (seen machine.new) way.new }
{
    if way.left == 0 {
        return;
    }
    if machine.finish_word() != 0 {
        return;
    }
    if machine.is_done(processor) {
        return;
    }
    let act = ScheduledAct::Step {
        processor,
        victim: None,
    };
    make(machine, way, act);
}

/// Lets each processor make a step, from 0.
fn go_round(machine: &mut Machine, way: &mut Way)
    requires ready { IsReady (seen machine.old) way.old }
    ensures does { Does (round (seen machine.old).shape.processors) (seen machine.old) way.old (seen machine.new) way.new }
    ensures ready { IsReady (seen machine.new) way.new }
{
    let processors = machine.processors();
    let mut processor = 0;
    while processor < processors {
        step(machine, way, processor);
        processor += 1;
    }
}

/// Makes rounds of a processor that is alone, so many at most: as many as the machine makes at
/// once. It tells how many; none where there are more processors.
fn go_ahead(machine: &mut Machine, way: &mut Way, most: u64) -> u64
    requires ready { IsReady (seen machine.old) way.old }
    ensures few { result ≤ most }
    ensures does { Does (rounds (seen machine.old).shape.processors result) (seen machine.old) way.old (seen machine.new) way.new }
    ensures ready { IsReady (seen machine.new) way.new }
{
    if machine.processors() != 1 {
        return 0;
    }
    step_ahead(machine, way, 0, most)
}

/// Lets the processors make steps in turn, while the finish word says nothing.
fn go_on(machine: &mut Machine, way: &mut Way, count: u64)
    requires ready { IsReady (seen machine.old) way.old }
    ensures does { Does (rounds (seen machine.old).shape.processors count) (seen machine.old) way.old (seen machine.new) way.new }
    ensures ready { IsReady (seen machine.new) way.new }
{
    let mut left = count;
    while left > 0 {
        // What the machine makes at once, and then one more.
        left -= go_ahead(machine, way, left);
        if left == 0 {
            return;
        }
        if way.left == 0 {
            return;
        }
        if machine.finish_word() != 0 {
            return;
        }
        go_round(machine, way);
        left -= 1;
    }
}

/// Goes on with a run under way: the acts of a list, and after these those of all processors in
/// turn, in at most so many rounds, until no act is left or the finish word says how the run ended.
/// An act of a processor that is done isn't made, and isn't counted.
pub fn follow_on(machine: &mut Machine, way: &mut Way, items: &[ScheduleItem], rounds: u64)
    requires among { All (IsItemAmong (seen machine.old).shape.processors) items.now }
    requires ready { IsReady (seen machine.old) way.old }
    ensures does { Does (dues_of (seen machine.old).shape.processors items.now rounds) (seen machine.old) way.old (seen machine.new) way.new }
    ensures ready { IsReady (seen machine.new) way.new }
{
    list(machine, way, items);
    go_on(machine, way, rounds);
}

/// Makes the run of a schedule, of at most so many acts, 2^40 at most: the acts of its list, and
/// after these those of all processors in turn, until the finish word says how the run ended. An
/// act of a processor that is done isn't made, and isn't counted.
pub fn follow(machine: &mut Machine, schedule: &Schedule, turns: u64)
    requires processors { schedule.now.processors ≡ (seen machine.old).shape.processors }
    requires turns { turns ≤ 2 ^ 40 }
    requires few { (seen machine.old).turns ≤ 2 ^ 61 }
    ensures { seen machine.new ≡ followed (seen machine.old) schedule.now.items turns }
{
    let mut way = Way::first(turns);
    follow_on(machine, &mut way, schedule.items(), turns);
}
