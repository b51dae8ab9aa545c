//! A leg: fresh processors go on from a state.
ghost use Rattle.std.specs.Prelude.{◌≡◌, ◌≤◌, IfOk};
ghost use Rattle.ppm_words.specs.Limits.{turn_limit};
ghost use Rattle.ppm_core.specs.Machine.{seen};
ghost use Rattle.ppm_outcomes.specs.Resumes.{state_of};
ghost use Rattle.ppm_legs.specs.CountedReplays.{IsCountedLegOf};
ghost use Rattle.ppm_legs.specs.SavedTexts.{IsLegOf};

use ppm_answers::RunCounts;
use ppm_core::Machine;
use ppm_following::follow;
use ppm_plan::Schedule;
use ppm_saved::{Names, Renewed, Saved, renew};
use ppm_trace::count_replay;
use ppm_words::NoMemory;
use std::alloc::Global;

/// The machine after the acts of a schedule, at most so many, of fresh processors that go on from a
/// state, one for each place; and the names of its arrays.
pub(crate) fn leg(
    alloc: Global,
    saved: Saved,
    schedule: &Schedule,
    acts: u64,
) -> Result<(Machine, Names), NoMemory>
    requires processors { schedule.now.processors ≡ saved.shape.processors }
    requires acts { acts ≤ turn_limit }
    ensures leg { IfOk result (λ leg. IsLegOf (state_of saved) schedule.now.items acts (seen leg.0)) }
    ensures names { IfOk result (λ leg. leg.1 ≡ saved.names) }
{
    let Renewed { image, code, names } = renew(saved, schedule.keeper());
    let mut machine = Machine::load(alloc, image, code)?;
    follow(&mut machine, schedule, acts);
    Ok((machine, names))
}

/// The machine after such acts, the names of its arrays, and what is counted in these acts.
pub(crate) fn counted_leg(
    alloc: Global,
    saved: Saved,
    schedule: &Schedule,
    acts: u64,
) -> Result<(Machine, Names, RunCounts), NoMemory>
    requires processors { schedule.now.processors ≡ saved.shape.processors }
    requires acts { acts ≤ turn_limit }
    ensures leg { IfOk result (λ leg. IsCountedLegOf (state_of saved) schedule.now.items acts (seen leg.0) leg.2) }
    ensures names { IfOk result (λ leg. leg.1 ≡ saved.names) }
{
    let Renewed {
        image: renewed,
        code,
        names,
    } = renew(saved, schedule.keeper());
    let mut machine = Machine::load(alloc, renewed, code)?;
    let counts = count_replay(alloc, &mut machine, schedule, acts)?;
    Ok((machine, names, counts))
}
