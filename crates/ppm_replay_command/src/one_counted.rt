//! That a text has one answer where its replay's counts are told, shown by calls that do nothing.
ghost use Rattle.ppm_replay_command.specs.CountedCases.{HaveOneCountedAnswer};
ghost use Rattle.ppm_replay_command.specs.CountedReplays.{HaveOneAnswer};

use ppm_case::faults_tell_cases;
use ppm_cut_code::keeps_the_rules;
use ppm_layout::images_are_one;
use ppm_plan::have_one_answer as schedules_have_one_answer;
use ppm_program::have_one_answer as texts_have_one_program;
use ppm_rows::trees_are_within;
use ppm_trace::counts_are_of_turns;

/// With all options and each schedule a text has one answer at most: the schedule is refused by one
/// number, or the text is refused for one reason, or its program's replay comes to one answer with
/// its counts. With options in their ranges a text that is not refused has one.
pub fn counted_replays_have_one_answer()
    ensures law { HaveOneAnswer }
{
    // The law rests on these; the calls do nothing.
    texts_have_one_program();
    trees_are_within();
    keeps_the_rules();
    images_are_one();
    schedules_have_one_answer();
    counts_are_of_turns();
}

/// With all options and each schedule a text whose case is replayed has one answer at most, its
/// counts included: the schedule is refused by one number, or the text is refused for one reason, or
/// its case's replay comes to one answer. With options in their ranges a text without a fault has
/// one.
pub fn counted_case_replays_have_one_answer()
    ensures law { HaveOneCountedAnswer }
{
    // The law rests on these; the calls do nothing.
    faults_tell_cases();
    images_are_one();
    schedules_have_one_answer();
    counts_are_of_turns();
}
