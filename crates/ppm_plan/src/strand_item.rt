//! The items of schedules of strands.
ghost use Rattle.std.specs.Prelude.{◌≡◌};
ghost use Rattle.ppm_plan.specs.Strands.{strand_item as of_item};

use crate::fault::Fault;
use crate::item::Item;
use crate::schedule_item::{ScheduleItem, ScheduledAct};

/// What one strand does. Strands count from 0 in the order of forks.
#[derive(Clone, Copy, Debug, PartialEq, Eq)]
pub enum StrandAct {
    /// It makes a step.
    Step { strand: u32 },
    /// A soft fault befalls it.
    Fails { strand: u32 },
}

/// An act, and how often it is done: once if it is a fault, a step from 1 to 268,435,456 times.
#[derive(Clone, Copy, Debug, PartialEq, Eq)]
pub struct StrandItem {
    pub act: StrandAct,
    pub times: u32,
}

/// The item of strands that an item of a schedule is, with strands for processors: strands have no
/// victims and no hard faults.
fn strand_item(item: ScheduleItem) -> Option<StrandItem>
    ensures { result ≡ of_item item }
{
    match item.act {
        ScheduledAct::Step { processor, victim } => match victim {
            None => Some(StrandItem {
                act: StrandAct::Step { strand: processor },
                times: item.times,
            }),
            Some(_) => None,
        },
        ScheduledAct::Fails { processor, fault } => match fault {
            Fault::Soft => Some(StrandItem {
                act: StrandAct::Fails { strand: processor },
                times: item.times,
            }),
            Fault::Hard => None,
        },
    }
}

impl Item for StrandItem {
    ghost use Rattle.ppm_plan.specs.Strands.{strand_form};

    ghost form = { strand_form };

    fn read(piece: &[u8]) -> Option<StrandItem> {
        match ScheduleItem::read(piece) {
            Some(item) => strand_item(item),
            None => None,
        }
    }

    fn is_outside(&self, _processors: u32) -> bool {
        false
    }

    fn kills(&self, _processor: u32) -> bool {
        false
    }
}
