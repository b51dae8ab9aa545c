//! A schedule that is followed on a machine of one's own.
ghost use Rattle.std.specs.Prelude.{◌≡◌, ◌≤◌, ◌^◌, IfOk};
ghost use Rattle.ppm_core.specs.Machine.{seen};
ghost use Rattle.ppm_loading.specs.Loading.{AreSizes};
ghost use Rattle.ppm_calls.specs.Follows.{HasFollowed, values_in};

use ppm_case::Case;
use ppm_cells::Ending;
use ppm_code::to_values;
use ppm_core::Machine;
use ppm_following::follow;
use ppm_loading::{Sizes, load_code};
use ppm_plan::Schedule;
use ppm_words::{Items, NoMemory};
use std::alloc::Global;

/// What the words of a machine say after a schedule.
#[derive(Debug, Drop)]
pub struct Followed {
    /// How the run has ended, if it has.
    pub ending: Ending,
    /// The values of the arrays at that moment, in the order of the input's.
    pub arrays: Vec<Items<i64>>,
}

/// Follows a schedule on a machine with these sizes, from the beginning of a run of a case: at most
/// so many acts. The keeper of the schedule has the root of the code.
pub fn follow_schedule(
    alloc: Global,
    sizes: Sizes,
    case: Case,
    schedule: &Schedule,
    acts: u64,
) -> Result<Followed, NoMemory>
    requires sizes { AreSizes sizes }
    requires processors { schedule.now.processors ≡ sizes.processors }
    requires acts { acts ≤ 2 ^ 40 }
    ensures { IfOk result (HasFollowed sizes case.code case.input schedule.now.items acts) }
{
    let mut machine = load_code(alloc, sizes, case.code, &case.input, schedule.keeper())?;
    follow(&mut machine, schedule, acts);
    let arrays = arrays_of(alloc, &machine)?;
    let ending = machine.outcome();
    Ok(Followed { ending, arrays })
}

/// The values of all arrays of a machine.
pub(crate) fn arrays_of(alloc: Global, machine: &Machine) -> Result<Vec<Items<i64>>, NoMemory>
    ensures { IfOk result (λ arrays. arrays.items ≡ values_in (seen machine.now)) }
{
    let mut arrays = Vec::new(alloc);
    for number in 0..machine.arrays() {
        let values = to_values(alloc, machine.array(number))?;
        arrays.push(Items::from_vec(values))?;
    }
    Ok(arrays)
}
