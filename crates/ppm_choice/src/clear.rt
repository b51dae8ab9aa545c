//! Acts that need no choice.
ghost use Rattle.std.specs.Prelude.{◌≡◌, ◌≤◌, ◌+◌, ℕ};
ghost use Rattle.ppm_plan.specs.Faults.{IsLeastFrom};
ghost use Rattle.ppm_step.specs.Standings.{Standing};
ghost use Rattle.ppm_choice.specs.Obeying.{Past, fault_of};
ghost use Rattle.ppm_choice.specs.Paces.{IsPace, AreClear, at_most as up_to};

use crate::limits::Limits;
use crate::pace::Pace;
use ppm_plan::Plan;

/// How many acts of a processor, from one on, come before the next for which the plan has a fault,
/// if there is one.
fn acts_to_fault(plan: &Plan, processor: u32, acts: u64) -> Option<u64>
    ensures { IsLeastFrom (λ k. fault_of plan.now.items processor (acts + k)) 0 result }
{
    let Ok(turn) = u32::try_from(acts) else {
        return None;
    };
    match plan.next_fault(processor, turn) {
        Some(next) => Some(u64::from(next) - acts),
        None => None,
    }
}

/// A number, up to the most.
fn at_most(most: Option<u64>, count: u64) -> u64
    ensures { result ≡ up_to most count }
{
    match most {
        Some(most) => count.min(most),
        None => count,
    }
}

/// How many acts of a processor come before the next fault of the plan, and at most as many as it
/// has work turns left. A step among them needs no choice: it is the next act of a processor that
/// neither is done nor rests, where no victim is due.
pub fn clear_steps(pace: &Pace, plan: &Plan, limits: Limits) -> u64
    ensures clear { (past : Past) (stood : Standing) → IsPace plan.now limits past stood pace.now
        → AreClear plan.now limits pace.now.processor past result }
    ensures most { (past : Past) (stood : Standing) → IsPace plan.now limits past stood pace.now
        → (steps : ℕ) → AreClear plan.now limits pace.now.processor past steps → steps ≤ result }
{
    let left = limits.turns.saturating_sub(pace.work);
    let most = acts_to_fault(plan, pace.processor, pace.acts);
    at_most(most, left)
}
