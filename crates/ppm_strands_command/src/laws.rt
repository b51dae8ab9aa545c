//! That a text has one answer where its strands are run, shown by calls that do nothing.
ghost use Rattle.ppm_strands_command.specs.Drawn.{HaveOneDrawnAnswer};
ghost use Rattle.ppm_strands_command.specs.Strands.{HaveOneAnswer};

use ppm_plan::have_one_answer as schedules_have_one_answer;
use ppm_racy_case::racy_faults_tell_cases;
use ppm_strand_runs::runs_are_one;

/// With all options and each schedule a text has one answer at most: the schedule is refused by one
/// number, or the text is refused for one reason, or the run of its case is told in one way.
pub fn strands_have_one_answer()
    ensures law { HaveOneAnswer }
{
    // The law rests on these; the calls do nothing.
    racy_faults_tell_cases();
    schedules_have_one_answer();
    runs_are_one();
}

/// With all options a text whose strands are run by drawn schedules has one answer at most.
pub fn drawn_strands_have_one_answer()
    ensures law { HaveOneDrawnAnswer }
{
    // The law rests on these; the calls do nothing.
    racy_faults_tell_cases();
    runs_are_one();
}
