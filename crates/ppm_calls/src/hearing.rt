//! A schedule that is followed with a listener, which keeps what it hears.
ghost use Rattle.std.specs.Prelude.{◌≡◌, ◌≤◌, ◌^◌, IfOk};
ghost use Rattle.ppm_loading.specs.Loading.{AreSizes};
ghost use Rattle.ppm_calls.specs.Heard.{HasHeard};

use crate::following::{Followed, arrays_of};
use crate::recorder::{ActRecorder, HeardAct};
use ppm_case::Case;
use ppm_loading::{Sizes, load_code};
use ppm_plan::Schedule;
use ppm_trace::follow_heard;
use ppm_words::NoMemory;
use std::alloc::Global;

/// A run of a schedule, with its acts.
#[derive(Debug, Drop)]
pub struct HeardRun {
    /// The acts that were made, in their order.
    pub acts: Vec<HeardAct>,
    /// What the words say after them.
    pub end: Followed,
}

/// Follows a schedule as `follow_schedule` does, and keeps each act that is made.
pub fn hear_schedule(
    alloc: Global,
    sizes: Sizes,
    case: Case,
    schedule: &Schedule,
    acts: u64,
) -> Result<HeardRun, NoMemory>
    requires sizes { AreSizes sizes }
    requires processors { schedule.now.processors ≡ sizes.processors }
    requires acts { acts ≤ 2 ^ 40 }
    ensures { IfOk result (HasHeard sizes case.code case.input schedule.now.items acts) }
{
    let mut machine = load_code(alloc, sizes, case.code, &case.input, schedule.keeper())?;
    let mut heard = Vec::new(alloc);
    follow_heard(
        alloc,
        &mut machine,
        schedule,
        acts,
        &ActRecorder,
        &mut heard,
    )?;
    let arrays = arrays_of(alloc, &machine)?;
    let ending = machine.outcome();
    Ok(HeardRun {
        acts: heard,
        end: Followed { ending, arrays },
    })
}
