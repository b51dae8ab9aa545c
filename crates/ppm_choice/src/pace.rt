//! The pace of a processor.
ghost use Rattle.std.specs.Prelude.{◌≡◌, ◌+◌, min, if◌then◌else◌};
ghost use Rattle.ppm_step.specs.Standings.{Standing, IsLost};
ghost use Rattle.ppm_step.specs.State.{next_of, seeks_holder};
ghost use Rattle.ppm_plan.specs.Schedules.{Planned};
ghost use Rattle.ppm_choice.specs.Deeds.{Deed};
ghost use Rattle.ppm_choice.specs.Obeying.{Past, nothing_done, behind, rested, is_work_deed};
ghost use Rattle.ppm_choice.specs.Paces.{IsPace, looks_along};
ghost use Rattle.ppm_choice.specs.declared.limits.Limits.{Limits};

use crate::limits::Limits;
use ppm_plan::Plan;
use ppm_step::{Next, Told};

/// The number of acts that is kept, past every turn that a plan can name.
const MOST_ACTS: u64 = 1 << 32;

/// What a processor has done so far, as far as its next act rests on it, and what its coming step
/// is.
#[derive(Clone, Copy, Debug, PartialEq, Eq)]
pub struct Pace {
    /// Its number, from 0.
    pub processor: u32,
    /// Whether it is the plan's keeper.
    pub keeper: bool,
    /// How many acts it has made; from 2^32 on, 2^32.
    pub acts: u64,
    /// How many of these were work turns; from the limit on, the limit.
    pub work: u64,
    /// How many looks it has made since the last of these, or since it rested; from the limit on,
    /// the limit.
    pub looks: u32,
    /// What its coming step is.
    pub next: Next,
    /// Whether a victim is due for it: it is the load of a holder word as the processor seeks work.
    pub due: bool,
}

impl Pace {
    /// That of a processor before its first act.
    pub fn first(plan: &Plan, processor: u32) -> Pace
        ensures number { result.processor ≡ processor }
        ensures pace { (limits : Limits) → IsPace plan.now limits nothing_done IsLost result }
    {
        Pace {
            processor,
            keeper: plan.keeper() == processor,
            acts: 0,
            work: 0,
            looks: 0,
            next: Next::Look,
            due: false,
        }
    }

    /// After an act of which this was told, where a victim is due for the coming step or is not.
    pub fn count(&mut self, limits: Limits, told: Told, due: bool)
        ensures number { self.new.processor ≡ self.old.processor }
        ensures work { self.new.work ≡ (if told.work then min (self.old.work + 1) limits.turns else self.old.work) }
        ensures pace { (plan : Planned) (past : Past) (deed : Deed) (stands : Standing)
            → IsPace plan limits past deed.stood self.old
            → told.work ≡ is_work_deed deed → told.next ≡ next_of stands → due ≡ seeks_holder stands
            → IsPace plan limits (behind past deed) stands self.new }
    {
        self.acts = more(self.acts, 1, MOST_ACTS);
        self.work = work_behind(self.work, limits.turns, told.work);
        self.looks = looks_behind(self.looks, limits.looks, told.work);
        self.next = told.next;
        self.due = due;
    }

    /// After so many steps in a row: so many of them were work, and so many were looks since the
    /// last of these, or in all where none was; a victim is due for the coming step or is not.
    pub fn count_steps(
        &mut self,
        limits: Limits,
        steps: u64,
        work: u64,
        looks: u64,
        next: Next,
        due: bool,
    )
        ensures number { self.new.processor ≡ self.old.processor }
        ensures work { self.new.work ≡ min (self.old.work + work) limits.turns }
        ensures pace { (plan : Planned) (past past' : Past) (stood stands : Standing)
            → IsPace plan limits past stood self.old → past'.acts ≡ past.acts + steps
            → past'.work ≡ past.work + work → past'.looks ≡ looks_along past.looks work looks
            → next ≡ next_of stands → due ≡ seeks_holder stands
            → IsPace plan limits past' stands self.new }
    {
        self.acts = more(self.acts, steps, MOST_ACTS);
        self.looks = looks_along(self.looks, limits.looks, work, looks);
        self.work = more(self.work, work, limits.turns);
        self.next = next;
        self.due = due;
    }

    /// After a rest: its looks count from 0 again.
    pub fn rest(&mut self)
        ensures number { self.new.processor ≡ self.old.processor }
        ensures pace { (plan : Planned) (limits : Limits) (past : Past) (stood : Standing)
            → IsPace plan limits past stood self.old
            → IsPace plan limits (rested past) stood self.new }
    {
        self.looks = 0;
    }
}

/// A count with further ones added, up to the most.
fn more(count: u64, further: u64, most: u64) -> u64
    ensures { result ≡ min (count + further) most }
{
    if count < most && further < most - count {
        count + further
    } else {
        most
    }
}

/// The work turns after an act, up to the most.
fn work_behind(work: u64, most: u64, is_work: bool) -> u64
    ensures { result ≡ (if is_work then min (work + 1) most else work) }
{
    if is_work { more(work, 1, most) } else { work }
}

/// The looks in a row after an act, up to the most.
fn looks_behind(looks: u32, most: u32, is_work: bool) -> u32
    ensures { result ≡ (if is_work then 0 else min (looks + 1) most) }
{
    if is_work {
        0
    } else if looks < most {
        looks + 1
    } else {
        most
    }
}

/// The looks in a row after steps in a row, up to the most.
fn looks_along(looks: u32, most: u32, work: u64, further: u64) -> u32
    ensures { result ≡ min (looks_along looks work further) most }
{
    if work == 0 {
        looks_more(looks, most, further)
    } else {
        looks_more(0, most, further)
    }
}

/// A count of looks with further ones added, up to the most.
fn looks_more(looks: u32, most: u32, further: u64) -> u32
    ensures { result ≡ min (looks + further) most }
{
    if looks < most && further < u64::from(most - looks) {
        looks + further as u32
    } else {
        most
    }
}
