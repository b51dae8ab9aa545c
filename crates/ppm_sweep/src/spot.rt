//! Places in the runs of a sweep: a machine under way, what is written of the schedule up to here,
//! and what is ahead.
ghost use Rattle.std.specs.Prelude.{◌≡◌, ◌<◌, ◌↔◌, ◌+◌, IfOk, OnOk, IsTrue, false, true, Some};
ghost use Rattle.ppm_core.specs.Acts.{is_done_at};
ghost use Rattle.ppm_core.specs.Machine.{seen};
ghost use Rattle.ppm_step.specs.State.{stand_of};
ghost use Rattle.ppm_choice.specs.Course.{act_of as act_due, processor_of as processor_named};
ghost use Rattle.ppm_choice.specs.Schedules.{dues_of};
ghost use Rattle.ppm_sweep.specs.Ahead.{due_of, dues_in, first_due, IsComingAmong};
ghost use Rattle.ppm_sweep.specs.Spots.{place_of, Advances, GoesOn, IsBeginning, IsLast, IsSpot};
ghost use Rattle.ppm_sweep.specs.Sweep.{struck as struck_by};
ghost use Rattle.ppm_words.specs.declared.outcome.Outcome.{Outcome};

use crate::ahead::{Ahead, Coming};
use crate::front::write_act;
use ppm_core::Machine;
use ppm_following::{Way, make};
use ppm_plan::{Fault, Schedule, ScheduleItem, ScheduledAct};
use ppm_words::NoMemory;
use std::alloc::Global;

/// A place in a run.
#[derive(Drop)]
pub(crate) struct Spot {
    /// The machine, as the run has made it.
    pub(crate) machine: Machine,
    /// What is counted along the run.
    pub(crate) way: Way,
    /// What is written of the schedule up to here.
    pub(crate) front: Vec<ScheduleItem>,
    /// What is ahead.
    pub(crate) ahead: Ahead,
    /// How many faults the sweep has put before it.
    pub(crate) faults: u64,
    /// How many acts were made since the last of them.
    pub(crate) number: u64,
}

/// The place before the first act of a schedule's run, on a copy of the machine.
pub(crate) fn begin(
    alloc: Global,
    machine: &Machine,
    schedule: &Schedule,
    turns: u64,
) -> Result<Spot, NoMemory>
    requires processors { schedule.now.processors ≡ (seen machine.now).shape.processors }
    ensures machine { IfOk result (λ s. s.machine ≡ machine.now) }
    ensures begins { IfOk result (IsBeginning turns schedule.now.items) }
    ensures dues { IfOk result (λ s. dues_in s.ahead ≡ dues_of (seen machine.now).shape.processors s.ahead.rest turns) }
    ensures processors { IfOk result (λ s. s.ahead.processors ≡ (seen machine.now).shape.processors) }
{
    let items = Vec::from_slice(alloc, schedule.items())?;
    let ahead = Ahead::new(items, machine.processors(), turns);
    let machine = machine.copy(alloc)?;
    Ok(Spot {
        machine,
        way: Way::first(turns),
        front: Vec::new(alloc),
        ahead,
        faults: 0,
        number: 0,
    })
}

/// Whether nothing more is made, where this comes next: no act is left, or it comes after the list
/// and the finish word says how the run ended.
pub(crate) fn is_over(spot: &Spot, coming: Coming) -> bool
    ensures { IsTrue result ↔ IsLast (seen spot.now.machine) spot.now.way coming }
{
    if spot.way.left == 0 {
        return true;
    }
    match coming {
        Coming::Listed(_) => false,
        Coming::InRound(_) => spot.machine.finish_word() != 0,
    }
}

/// The processor of what comes next.
pub(crate) fn processor_of(coming: Coming) -> u32
    ensures { result ≡ processor_named (act_due (due_of coming)) }
{
    match coming {
        Coming::Listed(act) => match act {
            ScheduledAct::Step { processor, .. } => processor,
            ScheduledAct::Fails { processor, .. } => processor,
        },
        Coming::InRound(processor) => processor,
    }
}

/// A count with one more; 2^62 of anything are as if memory were wanting.
fn one_more(count: u64) -> Result<u64, NoMemory>
    ensures { IfOk result (λ more. more ≡ count + 1) }
{
    if count >= 1 << 62 {
        return Err(NoMemory);
    }
    Ok(count + 1)
}

/// The place after a fault that strikes here, with all of the rounds ahead.
pub(crate) fn struck(
    alloc: Global,
    spot: &Spot,
    processor: u32,
    fault: Fault,
    turns: u64,
) -> Result<Spot, NoMemory>
    requires spot { (wanted : Outcome) × IsSpot wanted spot.now }
    requires there { processor < (seen spot.now.machine).shape.processors }
    requires left { 0 < spot.now.way.left }
    requires lives { is_done_at (stand_of (seen spot.now.machine).state processor) ≡ false }
    ensures place { IfOk result (λ s. place_of s ≡ struck_by (seen spot.now.machine).shape (seen spot.now.machine).code (place_of spot.now) processor fault) }
    ensures dues { IfOk result (λ s. dues_in s.ahead ≡ dues_of (seen spot.now.machine).shape.processors spot.now.ahead.rest turns) }
    ensures goes_on { IfOk result (GoesOn spot.now) }
    ensures counts { IfOk result (λ s. (s.faults ≡ spot.now.faults + 1) × (s.number ≡ 0)) }
{
    let faults = one_more(spot.faults)?;
    let rest = spot.ahead.rest(alloc)?;
    let mut machine = spot.machine.copy(alloc)?;
    let mut way = spot.way;
    let written = spot.front.as_slice();
    let mut front = Vec::from_slice(alloc, written)?;
    let act = ScheduledAct::Fails { processor, fault };
    write_act(&mut front, act)?;
    make(&mut machine, &mut way, act);
    let ahead = Ahead::new(rest, machine.processors(), turns);
    Ok(Spot {
        machine,
        way,
        front,
        ahead,
        faults,
        number: 0,
    })
}

/// Makes what comes next.
pub(crate) fn advance(spot: &mut Spot, coming: Coming) -> Result<(), NoMemory>
    requires spot { (wanted : Outcome) × IsSpot wanted spot.old }
    requires first { first_due spot.old.ahead ≡ Some (due_of coming) }
    requires among { IsComingAmong (seen spot.old.machine).shape.processors coming }
    requires more { ¬ IsLast (seen spot.old.machine) spot.old.way coming }
    requires lives { is_done_at (stand_of (seen spot.old.machine).state (processor_named (act_due (due_of coming)))) ≡ false }
    ensures { OnOk result (Advances (due_of coming) spot.old spot.new) }
{
    let number = one_more(spot.number)?;
    let act = coming.act();
    write_act(&mut spot.front, act)?;
    make(&mut spot.machine, &mut spot.way, act);
    spot.ahead.pass();
    spot.number = number;
    Ok(())
}

/// Passes what comes next, where its processor is done: an act of the list is written all the same.
pub(crate) fn skip(spot: &mut Spot, coming: Coming) -> Result<(), NoMemory>
    requires spot { (wanted : Outcome) × IsSpot wanted spot.old }
    requires first { first_due spot.old.ahead ≡ Some (due_of coming) }
    requires done { is_done_at (stand_of (seen spot.old.machine).state (processor_named (act_due (due_of coming)))) ≡ true }
    ensures { OnOk result (Advances (due_of coming) spot.old spot.new) }
{
    match coming {
        Coming::Listed(act) => {
            write_act(&mut spot.front, act)?;
            spot.ahead.pass();
            Ok(())
        }
        Coming::InRound(_) => {
            spot.ahead.pass();
            Ok(())
        }
    }
}
