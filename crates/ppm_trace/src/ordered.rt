//! The faults that a schedule orders.
ghost use Rattle.std.specs.Prelude.{◌≡◌, ◌≤◌, if◌then◌else◌};
ghost use Rattle.ppm_following.specs.OrderedFaults.{ordered_faults, fails};

use ppm_plan::{ScheduleItem, ScheduledAct};

/// One for an act that is a fault.
fn one_of(act: ScheduledAct) -> usize
    ensures value { result ≡ (if fails act then 1 else 0) }
    ensures few { result ≤ 1 }
{
    match act {
        ScheduledAct::Step { .. } => 0,
        ScheduledAct::Fails { .. } => 1,
    }
}

/// How many faults some items of a schedule order.
pub(crate) fn faults_among(items: &[ScheduleItem]) -> u64
    ensures { result ≡ ordered_faults items.now }
{
    let mut count: usize = 0;
    let mut left = items;
    while let [item, rest @ ..] = left {
        count += one_of(item.act);
        left = rest;
    }
    count as u64
}
