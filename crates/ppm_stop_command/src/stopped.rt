//! That what is stopped and resumed ends as its program does, or as its sound case, shown by calls
//! that do nothing.
ghost use Rattle.ppm_stop_command.specs.CaseStopped.{StoppedCasesGoOn};
ghost use Rattle.ppm_stop_command.specs.CompleteLegsAsCode.{FreshFindNoLimit, RunsOfCodeCompleteInLegs};
ghost use Rattle.ppm_stop_command.specs.Stopped.{StoppedRunsGoOn};

use crate::states::stops_leave_states;
use ppm_outcomes::{resume_laws, runs_in_legs_are_as_code};
use ppm_program::have_one_answer as texts_have_one_program;

/// Where the text that `resume` reads is the one that `stop` wrote, it is never refused, and no words are
/// found broken. The arrays or the trap that `resume` writes are the serial outcome of the program whose
/// source `stop` read, whatever the schedule, the plan and the threads did. Where the turns of a
/// processor are at least 256 for each capsule that its code runs depth first, each fault of the
/// schedule and of the plan, and each processor, and a pool has as many words as that run takes, each
/// answer of that text is that the resumed run ended.
pub fn stopped_runs_go_on()
    ensures law { StoppedRunsGoOn }
{
    // The law rests on these; the calls do nothing.
    stops_leave_states();
    resume_laws();
    texts_have_one_program();
}

/// Where the text that `resume` reads is the one that `stop` wrote of a sound case, it is never
/// refused, and no words are found broken. The arrays or the trap that `resume` writes are the end
/// of the case's code, run depth first, whatever the schedule, the plan and the threads did; and
/// over both runs each branch that was forked was taken exactly once. That turns are spent, or that
/// a pool is full, it says only where they are too few, or the room is too little. Where the turns
/// of a processor are at least 256 for each capsule that the code runs depth first, each fault of
/// the schedule and of the plan, and each processor, and a pool has as many words as that run
/// takes, each answer of that text is that the resumed run ended.
pub fn stopped_cases_go_on()
    ensures law { StoppedCasesGoOn }
{
    // The law rests on these; the calls do nothing.
    stops_leave_states();
    resume_laws();
}

/// With such turns and such room, and at most 2^34 turns for each processor, what goes on after at
/// most 2^50 legs of a run of a sound code ends, whoever wrote the code: where each fresh processor
/// obeys a plan that spares one, the finish word says an outcome, and it is that of the code, run
/// depth first. That it says no mere limit when they begin is so of the words that they find.
pub fn runs_of_code_complete_in_legs()
    ensures law { RunsOfCodeCompleteInLegs }
    ensures fresh { FreshFindNoLimit }
{
    // The law rests on this one; the call does nothing.
    runs_in_legs_are_as_code();
}
