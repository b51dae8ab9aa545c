//! The items of a schedule, written act by act.
ghost use Rattle.std.specs.Prelude.{◌≡◌, ◌++◌, OnOk, IfOk};
ghost use Rattle.ppm_sweep.specs.Sweep.{joined, same_step as are_same_step};
ghost use Rattle.ppm_sweep.specs.Sweep.{same_victim as are_same_victim, with_act};

use ppm_plan::{MOST_TIMES, ScheduleItem, ScheduledAct};
use ppm_words::NoMemory;
use std::alloc::Global;

/// Whether the same victim is stated, or none is.
fn same_victim(first: Option<u32>, second: Option<u32>) -> bool
    ensures { result ≡ are_same_victim first second }
{
    match first {
        Some(first) => match second {
            Some(second) => first == second,
            None => false,
        },
        None => match second {
            Some(_) => false,
            None => true,
        },
    }
}

/// Whether both are a step of one processor, with the same victim stated.
fn same_step(first: ScheduledAct, second: ScheduledAct) -> bool
    ensures { result ≡ are_same_step first second }
{
    match first {
        ScheduledAct::Step { processor, victim } => match second {
            ScheduledAct::Step {
                processor: other,
                victim: others,
            } => processor == other && same_victim(victim, others),
            ScheduledAct::Fails { .. } => false,
        },
        ScheduledAct::Fails { .. } => false,
    }
}

/// An item that is done once.
fn once(act: ScheduledAct) -> ScheduleItem
    ensures { result ≡ record { act = act; times = 1 } }
{
    ScheduleItem { act, times: 1 }
}

/// Writes an act more after the last item.
fn join(
    items: &mut Vec<ScheduleItem>,
    last: ScheduleItem,
    act: ScheduledAct,
) -> Result<(), NoMemory>
    ensures { OnOk result (items.new.items ≡ items.old.items ++ joined last act) }
{
    if same_step(last.act, act) && last.times < MOST_TIMES {
        items.push(ScheduleItem {
            act: last.act,
            times: last.times + 1,
        })?;
        return Ok(());
    }
    items.push(last)?;
    items.push(once(act))?;
    Ok(())
}

/// Writes an act more: steps in a row are one item, and each fault is one.
pub(crate) fn write_act(items: &mut Vec<ScheduleItem>, act: ScheduledAct) -> Result<(), NoMemory>
    ensures { OnOk result (items.new.items ≡ with_act items.old.items act) }
{
    match items.pop() {
        Some(last) => join(items, last, act),
        None => {
            items.push(once(act))?;
            Ok(())
        }
    }
}

/// The items of two lists, one after the other.
pub(crate) fn both(
    alloc: Global,
    first: &[ScheduleItem],
    more: &[ScheduleItem],
) -> Result<Vec<ScheduleItem>, NoMemory>
    ensures { IfOk result (λ items. items.items ≡ first.now ++ more.now) }
{
    let mut items = Vec::from_slice(alloc, first)?;
    items.extend_from_slice(more)?;
    Ok(items)
}
