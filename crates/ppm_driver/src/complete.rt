//! That runs with turns and room enough end, shown by a call that does nothing.
ghost use Rattle.ppm_outcomes.specs.CompleteAsCode.{RunsOfCodeComplete};
ghost use Rattle.ppm_outcomes.specs.Completeness.{RunsComplete};
ghost use Rattle.ppm_outcomes.specs.Strikes.{StrikesArePlanned, UndoneArePlanned};

use ppm_outcomes::{runs_are_as_code, runs_are_as_programs};
use ppm_plan::have_one_answer as plans_have_one_answer;
use ppm_program::have_one_answer as texts_have_one_program;

/// Where each processor obeys a plan, no more faults strike a row of work, or undo work, than the
/// plan has. So with options in their ranges: where the turns of a processor are at least 256 for
/// each capsule that the code of a text's program runs depth first and each fault of the plan, and
/// a pool has as many words as that run takes, each answer of the text is that its run ended.
pub fn runs_complete()
    ensures strikes { StrikesArePlanned }
    ensures undone { UndoneArePlanned }
    ensures law { RunsComplete }
{
    // The law rests on these; the calls do nothing.
    runs_are_as_programs();
    plans_have_one_answer();
    texts_have_one_program();
}

/// With such turns and such room, and at most 2^34 turns for each processor, the run of a sound
/// code on its input ends: where each processor obeys a plan that spares the one with the root, the
/// finish word says an outcome, and it is that of the code, run depth first.
pub fn runs_of_code_complete()
    ensures law { RunsOfCodeComplete }
{
    // The law rests on this one; the call does nothing.
    runs_are_as_code();
}
