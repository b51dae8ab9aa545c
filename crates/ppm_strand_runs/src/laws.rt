//! What is true of every run, shown by a call that does nothing.
ghost use Rattle.ppm_strand_runs.specs.Correct.{FallsOfRunsRefute, RunsAreOne};

use ppm_interleaving::{falls_refute, schedules_have_one_run};

/// Where something falls in the run of a schedule without faults, what is done does not stand in
/// each run without faults, as the law on invisible faults asks.
pub fn falls_of_runs_refute()
    ensures { FallsOfRunsRefute }
{
    // The law rests on this one; the call does nothing.
    falls_refute();
}

/// A case and a schedule have one run, as far as it is told: two runs have the same deeds, the same
/// first fall, and come to the same words and the same end.
pub fn runs_are_one()
    ensures law { RunsAreOne }
{
    // The law rests on this one; the call does nothing.
    schedules_have_one_run();
}
