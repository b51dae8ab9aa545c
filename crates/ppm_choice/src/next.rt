//! The act that comes next, with its victim.
ghost use Rattle.std.specs.Prelude.{◌≡◌};
ghost use Rattle.ppm_step.specs.Standings.{Standing};
ghost use Rattle.ppm_choice.specs.Drawn.{HasDrawn, IsNext, is_over as over};
ghost use Rattle.ppm_choice.specs.Obeying.{Past};
ghost use Rattle.ppm_choice.specs.Paces.{IsPace};

use crate::choosing::{Choice, choose};
use crate::limits::Limits;
use crate::pace::Pace;
use ppm_plan::{Plan, Victims};
use ppm_step::{Act, Next};

/// Whether no step is to come.
pub fn is_over(next: Next) -> bool
    ensures { result ≡ over next }
{
    matches!(next, Next::Done)
}

/// The next act of a processor, with the next of its victims where one is due; `None` where it
/// leaves, or parks, and then no victim is drawn.
pub fn next_act(pace: &Pace, victims: &mut Victims, plan: &Plan, limits: Limits) -> Option<Act>
    ensures { (past : Past) (stood : Standing) → IsPace plan.now limits past stood pace.now
        → HasDrawn plan.now limits pace.now.processor past victims.old
        → IsNext plan.now limits pace.now.processor past stood victims.new result }
{
    match choose(pace, plan, limits) {
        Choice::Leave => None,
        Choice::Draw => {
            let victim = victims.next();
            Some(Act::Step { victim })
        }
        Choice::Do(act) => Some(act),
    }
}
