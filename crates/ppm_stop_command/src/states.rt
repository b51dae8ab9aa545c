//! That the states which runs, `stop` and `resume` leave are those of their codes and their
//! programs, shown by calls that do nothing.
ghost use Rattle.ppm_outcomes.specs.CodeResumes.{ResumesOfCodeLeaveStates, RunsOfCodeLeaveStates, StopsOfCodeLeaveStates};
ghost use Rattle.ppm_outcomes.specs.Resumes.{ResumesLeaveStates, RunsLeaveStates, StopsLeaveStates};
ghost use Rattle.ppm_outcomes.specs.Strikes.{FaultsAreScheduled};

use ppm_outcomes::{left_words_come_back, programs_are_as_code, runs_in_legs_are_as_code};
use ppm_saved_reader::faults_tell_saved_texts;

/// With takeover by places, whatever turns are made from the machine with which a run of a code
/// begins: the state after them is left by that code. Where it is that of a text's program, the
/// state is left by that text, so what the rows of `resume` say of it holds of the program.
pub fn runs_leave_states()
    ensures law { RunsLeaveStates }
    ensures of_code { RunsOfCodeLeaveStates }
{}

/// What `stop` writes of a code that is tidy and has no conflict is the saved text of a state that
/// is left by the code, and by the text that has this code's program. `resume` never refuses it,
/// and reads that state from it, and no other. No more faults struck a row of work before it than
/// the schedule has, since no more turns of a schedule's run are faults.
pub fn stops_leave_states()
    ensures law { StopsLeaveStates }
    ensures faults { FaultsAreScheduled }
    ensures of_code { StopsOfCodeLeaveStates }
{
    // The law rests on this one; the call does nothing.
    faults_tell_saved_texts();
}

/// The state after turns of fresh processors that went on from one that a sound code left, or a
/// program, is left by that code or program too, whatever the turns are, unless words came back
/// 2^50 times.
pub fn resumes_leave_states()
    ensures law { ResumesLeaveStates }
    ensures of_code { ResumesOfCodeLeaveStates }
{
    // The law rests on these; the calls do nothing.
    runs_in_legs_are_as_code();
    programs_are_as_code();
    left_words_come_back();
}
