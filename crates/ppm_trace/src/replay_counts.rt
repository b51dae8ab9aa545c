//! The counts of the run of a schedule.
ghost use Rattle.std.specs.Prelude.{◌≡◌, ◌≤◌, ◌^◌, IfOk, OnOk};
ghost use Rattle.ppm_choice.specs.Schedules.{schedule_turns};
ghost use Rattle.ppm_core.specs.Machine.{seen};
ghost use Rattle.ppm_trace.specs.RunCounts.{counts_of, run_counts};
ghost use Rattle.ppm_following.specs.OrderedFaults.{ordered_faults};
ghost use Rattle.ppm_following.specs.Followed.{followed};

use crate::counting::count_run;
use crate::counts::Counts;
use crate::ordered::faults_among;
use crate::room::most_given;
use ppm_answers::RunCounts;
use ppm_core::Machine;
use ppm_plan::Schedule;
use ppm_words::NoMemory;
use std::alloc::Global;

/// Makes the run of a schedule, of so many acts at most, and answers what is counted in it. `Err`
/// only where memory is refused.
pub fn count_replay(
    alloc: Global,
    machine: &mut Machine,
    schedule: &Schedule,
    turns: u64,
) -> Result<RunCounts, NoMemory>
    requires processors { schedule.now.processors ≡ (seen machine.old).shape.processors }
    requires turns { turns ≤ 2 ^ 40 }
    requires few { (seen machine.old).turns ≤ 2 ^ 61 }
    ensures counts { IfOk result (λ counts. counts ≡ run_counts (ordered_faults schedule.now.items) (seen machine.old)
        (schedule_turns (seen machine.old).shape (seen machine.old).code (seen machine.old).state schedule.now.items turns)) }
    ensures followed { OnOk result (seen machine.new ≡ followed (seen machine.old) schedule.now.items turns) }
{
    let before = machine.work();
    let told = count_run(alloc, machine, schedule, turns)?;
    let ordered = faults_among(schedule.items());
    Ok(counts_of(told, before, machine, ordered))
}

/// The counts of a run that is counted so, from a machine that had made so much work, to this one.
fn counts_of(told: Counts, work_before: u64, machine: &Machine, ordered: u64) -> RunCounts
    ensures { result ≡ counts_of told work_before (seen machine.now) ordered }
{
    let _ = machine.array_lengths();
    let work = machine.work().saturating_sub(work_before);
    RunCounts {
        acts: told.acts,
        work,
        looks: told.acts.saturating_sub(work),
        forks: told.forks,
        takes: told.takes,
        stolen: told.won,
        takeovers: told.takeovers,
        soft: told.soft,
        hard: told.hard,
        missed: ordered.saturating_sub(told.soft).saturating_sub(told.hard),
        room: most_given(machine.shape(), machine.words()),
    }
}
