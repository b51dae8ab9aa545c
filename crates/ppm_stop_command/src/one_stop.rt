//! That a text has one answer where it is stopped, or its case, shown by calls that do nothing.
ghost use Rattle.ppm_outcomes.specs.Stops.{HaveOneAnswer};
ghost use Rattle.ppm_stop_command.specs.CaseStops.{HaveOneStopAnswer};

use ppm_case::faults_tell_cases;
use ppm_layout::images_are_one;
use ppm_plan::have_one_answer as schedules_have_one_answer;
use ppm_program::have_one_answer as texts_have_one_program;
use ppm_rows::trees_are_within;

/// With all options and each schedule a text has one answer at most: the schedule is refused by one
/// number, or the text is refused for one reason, or the state after its program's run is saved as
/// one text. With options in their ranges a text that is not refused has one.
pub fn stops_have_one_answer()
    ensures law { HaveOneAnswer }
{
    // The law rests on these; the calls do nothing.
    texts_have_one_program();
    trees_are_within();
    images_are_one();
    schedules_have_one_answer();
}

/// With all options and each schedule a text whose case is stopped has one answer at most: the
/// schedule is refused by one number, or the text is refused for one reason, or the state after its
/// case's run is saved as one text. With options in their ranges a text without a fault has one.
pub fn case_stops_have_one_answer()
    ensures law { HaveOneStopAnswer }
{
    // The law rests on these; the calls do nothing.
    faults_tell_cases();
    images_are_one();
    schedules_have_one_answer();
}
