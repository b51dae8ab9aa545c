//! Schedules.
ghost use Rattle.std.specs.Prelude.{◌≡◌, ◌≤◌, ◌<◌, ◌^◌, IfOk, IfErr, IfSome, length};
ghost use Rattle.std.specs.Int.{IsInRange};
ghost use Rattle.std.specs.List.{All, slice_get};
ghost use Rattle.ppm_plan.specs.Faults.{acts_of};
ghost use Rattle.ppm_plan.specs.Forms.{schedule_form};
ghost use Rattle.ppm_plan.specs.Refusals.{IsAccepted, IsRefused, IsKeeper, item_limit};
ghost use Rattle.ppm_plan.specs.Schedules.{IsItemAmong};

use crate::judging::keeper_of;
use crate::plan_error::PlanError;
use crate::reading::read_items;
use crate::schedule_item::ScheduleItem;
use std::alloc::Global;
use std::marker::Model;

/// A schedule: which processor acts next. Some processor has no hard fault. It is seen as the
/// number of processors for which it is, and its items in the order of the text; a step that is
/// made many times is one item. So its memory grows with the text and not with the acts.
#[derive(Debug, Drop)]
pub struct Schedule {
    items: Vec<ScheduleItem>,
    processors: u32,
    keeper: u32,
}

impl Model for Schedule {
    ghost use Rattle.std.specs.Prelude.{◌<◌, ◌≤◌, length};
    ghost use Rattle.std.specs.List.{All};
    ghost use Rattle.ppm_plan.specs.Forms.{schedule_form};
    ghost use Rattle.ppm_plan.specs.Refusals.{IsKeeper, item_limit};
    ghost use Rattle.ppm_plan.specs.Schedules.{Scheduled, IsItemAmong};

    ghost Value = { Scheduled };

    ghost view = { λ s. record { processors = s.processors; items = s.items.items } };

    ghost invariant = { λ s. IsKeeper schedule_form s.items.items s.keeper × (s.keeper < s.processors) × (length s.items.items ≤ item_limit)
        × All (IsItemAmong s.processors) s.items.items };
}

/// How often an item is done.
fn times_of(item: ScheduleItem) -> u64
    ensures value { result ≡ item.times }
    ensures bound { result < 2 ^ 32 }
{
    u64::from(item.times)
}

/// How many acts some items stand for.
fn acts_in(items: &[ScheduleItem]) -> u64
    requires { length items.now ≤ item_limit }
    ensures { result ≡ length (acts_of items.now) }
{
    let mut count: u64 = 0;
    let mut left = items;
    while let [item, rest @ ..] = left {
        count += times_of(*item);
        left = rest;
    }
    count
}

impl Schedule {
    fn with_keeper(items: Vec<ScheduleItem>, processors: u32, keeper: u32) -> Schedule
        requires kept { IsKeeper schedule_form items.items keeper }
        requires below { keeper < processors }
        requires few { length items.items ≤ item_limit }
        requires among { All (IsItemAmong processors) items.items }
        ensures items { result.items ≡ items.items }
        ensures processors { result.processors ≡ processors }
    {
        Schedule {
            items,
            processors,
            keeper,
        }
    }

    /// For how many processors it is.
    pub fn processors(&self) -> u32
        ensures { result ≡ self.now.processors }
    {
        self.processors
    }

    /// The least processor without a hard fault.
    pub fn keeper(&self) -> u32
        ensures keeper { IsKeeper schedule_form self.now.items result }
        ensures below { result < self.now.processors }
    {
        self.keeper
    }

    /// The items, in the order of the text.
    pub fn items(&self) -> &[ScheduleItem]
        ensures items { result.now ≡ self.now.items }
        ensures among { All (IsItemAmong self.now.processors) result.now }
    {
        &self.items
    }

    /// The item at a place, from 0; `None` past the last. It names processors below those of the
    /// schedule. A step is made from 1 to 268,435,456 times, a fault happens once.
    pub fn item(&self, index: usize) -> Option<ScheduleItem>
        ensures value { result ≡ slice_get self.now.items index }
        ensures among { IfSome result (IsItemAmong self.now.processors) }
    {
        self.items.get(index).copied()
    }

    /// How many acts all items stand for, at most 2^40.
    pub fn act_count(&self) -> u64
        ensures { result ≡ length (acts_of self.now.items) }
    {
        acts_in(&self.items)
    }
}

/// The schedule that a text says for `processors` processors, from 1 to 64: `none`, or items with
/// commas between them. An item is a step `c` or `c>v` (of processor c, with victim v), perhaps
/// with `*n` after it (n from 1 to 268,435,456), or a fault `c!s` or `c!h`. `Err` with the one
/// reason why it is none.
pub fn read_schedule(alloc: Global, text: &[u8], processors: u32) -> Result<Schedule, PlanError>
    requires { IsInRange 1 64 processors }
    ensures schedule { IfOk result (λ schedule. IsAccepted schedule_form text.now processors schedule.items) }
    ensures processors { IfOk result (λ schedule. schedule.processors ≡ processors) }
    ensures refused { IfErr result (IsRefused schedule_form text.now processors) }
{
    let items: Vec<ScheduleItem> = read_items(alloc, text)?;
    let keeper = keeper_of(&items, processors)?;
    Ok(Schedule::with_keeper(items, processors, keeper))
}
