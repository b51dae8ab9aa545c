//! The choice of an act.
ghost use Rattle.std.specs.Prelude.{◌≡◌};
ghost use Rattle.ppm_step.specs.Standings.{Standing};
ghost use Rattle.ppm_choice.specs.Deeds.{act_of_fault};
ghost use Rattle.ppm_choice.specs.Obeying.{Past, fault_of};
ghost use Rattle.ppm_choice.specs.Paces.{IsPace, IsChoice, chosen, unfaulted};

use crate::limits::Limits;
use crate::pace::Pace;
use ppm_plan::{Fault, Plan};
use ppm_step::{Act, Next, Why};

/// What a processor does next.
#[derive(Clone, Copy, Debug, PartialEq, Eq)]
pub enum Choice {
    /// It makes this act. A step names the victim 0, as none is due.
    Do(Act),
    /// It makes a step with the next victim that is drawn.
    Draw,
    /// It makes none: it leaves the run, or parks where the limits say so.
    Leave,
}

/// The act that a fault is.
pub fn act_of_fault(fault: Fault) -> Act
    ensures { result ≡ act_of_fault fault }
{
    match fault {
        Fault::Soft => Act::Soft,
        Fault::Hard => Act::Hard,
    }
}

/// The fault of an act, by its number.
fn fault_in(plan: &Plan, processor: u32, acts: u64) -> Option<Fault>
    ensures { result ≡ fault_of plan.now.items processor acts }
{
    match u32::try_from(acts) {
        Ok(turn) => plan.at(processor, turn),
        Err(_) => None,
    }
}

/// What a processor does next: it leaves, or parks, where it is not the keeper, is about to seek
/// work, and has looked often enough in a row; else it meets the fault that the plan has for this
/// act; else it quits where its work turns are spent and the step is work; else it makes its step,
/// with the next victim where one is due.
pub fn choose(pace: &Pace, plan: &Plan, limits: Limits) -> Choice
    ensures choice { (past : Past) (stood : Standing) → IsPace plan.now limits past stood pace.now
        → IsChoice plan.now limits pace.now.processor past stood result }
    ensures pace { result ≡ chosen plan.now limits pace.now }
{
    chosen(pace, plan, limits)
}

/// What a processor of this pace does next.
fn chosen(pace: &Pace, plan: &Plan, limits: Limits) -> Choice
    ensures { result ≡ chosen plan.now limits pace.now }
{
    let seeks = matches!(pace.next, Next::Seek);
    if seeks && !pace.keeper && limits.looks <= pace.looks {
        return Choice::Leave;
    }
    match fault_in(plan, pace.processor, pace.acts) {
        Some(fault) => Choice::Do(act_of_fault(fault)),
        None => unfaulted(pace, limits),
    }
}

/// Where no fault is met.
fn unfaulted(pace: &Pace, limits: Limits) -> Choice
    ensures { result ≡ unfaulted limits pace.now }
{
    let works = matches!(pace.next, Next::Work);
    if works && limits.turns <= pace.work {
        Choice::Do(Act::Quit(Why::Turns))
    } else if pace.due {
        Choice::Draw
    } else {
        Choice::Do(Act::Step { victim: 0 })
    }
}
