//! What is counted in a run of which nothing is written.
ghost use Rattle.std.specs.Prelude.{◌≡◌, ◌≤◌, ◌^◌, IfOk, OnOk};
ghost use Rattle.ppm_choice.specs.Schedules.{schedule_turns};
ghost use Rattle.ppm_core.specs.Machine.{seen};
ghost use Rattle.ppm_core.specs.Situation.{run_on};
ghost use Rattle.ppm_trace.specs.Counts.{no_counts};
ghost use Rattle.ppm_trace.specs.Trace.{counts_along};

use crate::counts::Counts;
use crate::hearing::follow_heard;
use crate::tale::{Excerpt, Tale};
use crate::teller::Teller;
use ppm_core::Machine;
use ppm_naming::Names;
use ppm_plan::Schedule;
use ppm_words::{Items, NoMemory};
use std::alloc::Global;

/// Makes the run of a schedule, of so many acts at most, and answers what is counted in it. `Err`
/// only where memory is refused.
pub(crate) fn count_run(
    alloc: Global,
    machine: &mut Machine,
    schedule: &Schedule,
    turns: u64,
) -> Result<Counts, NoMemory>
    requires processors { schedule.now.processors ≡ (seen machine.old).shape.processors }
    requires turns { turns ≤ 2 ^ 40 }
    requires few { (seen machine.old).turns ≤ 2 ^ 61 }
    ensures counts { IfOk result (λ counts. counts ≡ counts_along 0 no_counts (seen machine.old)
        (schedule_turns (seen machine.old).shape (seen machine.old).code (seen machine.old).state schedule.now.items turns)) }
    ensures made { OnOk result (seen machine.new ≡ run_on (seen machine.old)
        (schedule_turns (seen machine.old).shape (seen machine.old).code (seen machine.old).state schedule.now.items turns)) }
{
    // Nothing is written, so nothing is named.
    let names = Names {
        arrays: Items::from_vec(Vec::new(alloc)),
        procedures: Items::from_vec(Vec::new(alloc)),
    };
    let mut tale = Tale {
        text: Vec::new(alloc),
        strokes: Vec::new(alloc),
        counts: Counts::none(),
    };
    let excerpt = Excerpt {
        form: None,
        from: 0,
    };
    let teller = Teller {
        names: &names,
        excerpt,
    };
    follow_heard(alloc, machine, schedule, turns, &teller, &mut tale)?;
    Ok(tale.counts)
}
