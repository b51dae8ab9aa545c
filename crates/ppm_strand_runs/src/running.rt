//! Runs of schedules.
ghost use Rattle.std.specs.Prelude.{◌≡◌, ◌≤◌, ◌^◌, IfOk};
ghost use Rattle.ppm_words.specs.Inputs.{IsInput};
ghost use Rattle.ppm_depth.specs.Start.{NamesArrays};
ghost use Rattle.ppm_racy.specs.Code.{plain_code};
ghost use Rattle.ppm_strand_runs.specs.Run.{IsStart, IsRunOf};

use crate::order::Order;
use crate::root::{root_words, words_of};
use crate::run::StrandRun;
use ppm_interleaving::Machine;
use ppm_plan::StrandItem;
use ppm_racy::RacyCode;
use ppm_words::{NamedArray, NoMemory};
use std::alloc::Global;

/// The run before any turn.
fn start(alloc: Global, code: &RacyCode, input: &[NamedArray]) -> Result<StrandRun, NoMemory>
    requires named { NamesArrays (plain_code code.now) input.now }
    requires input { IsInput input.now }
    ensures { IfOk result (IsStart code.now input.now) }
{
    let slots = root_words(alloc, code, input)?;
    let words = words_of(alloc, input)?;
    let machine = Machine::new(alloc, code, slots, words)?;
    let done = Vec::new(alloc);
    let made = Vec::new(alloc);
    Ok(StrandRun {
        machine,
        turns: 0,
        done,
        made,
        fall: None,
    })
}

/// The run of a schedule: its turns, one after the other, and then all strands in rounds, by their
/// numbers. It ends once the root's strand is over, or after so many turns.
pub fn run_strands(
    alloc: Global,
    code: &RacyCode,
    input: &[NamedArray],
    schedule: &[StrandItem],
    turns: u64,
) -> Result<StrandRun, NoMemory>
    requires named { NamesArrays (plain_code code.now) input.now }
    requires input { IsInput input.now }
    requires few { turns ≤ 2 ^ 63 }
    ensures { IfOk result (IsRunOf code.now input.now schedule.now turns) }
{
    let mut run = start(alloc, code, input)?;
    let mut order = Order::new(schedule);
    while run.goes_on(turns) {
        let next = order.next(run.machine.strands.len() as u64);
        run.make(alloc, code, next.turn)?;
        order = next.order;
    }
    Ok(run)
}
