//! That a text has no two answers where it is swept, shown by calls that do nothing.
ghost use Rattle.ppm_sweep_command.specs.CaseSweeps.{HaveOneCaseAnswer};
ghost use Rattle.ppm_sweep_command.specs.Sweeps.{HaveOneAnswer};

use ppm_case::faults_tell_cases;
use ppm_depth::runs_are_there;
use ppm_layout::images_are_one;
use ppm_outcomes::programs_are_as_code;
use ppm_plan::{have_one_answer as schedules_have_one_answer, texts_read_as_written};
use ppm_program::have_one_answer as texts_have_one_program;
use ppm_sweep::{schedules_are_written, sweeps_are_fair};

/// With all options and each schedule a text has one answer at most where it is swept: the schedule
/// is refused by one number, or the text is refused for one reason, or its program takes more
/// capsules than it may, or all its replays agree, with their counts, or one is the first that
/// differs. With options in their ranges a text that is not refused has one.
pub fn sweeps_have_one_answer()
    ensures law { HaveOneAnswer }
{
    // The law rests on these; the calls do nothing.
    texts_have_one_program();
    programs_are_as_code();
    images_are_one();
    runs_are_there();
    schedules_have_one_answer();
    sweeps_are_fair();
    schedules_are_written();
    texts_read_as_written();
}

/// With all options and each schedule a text whose case is swept has one answer at most: what a
/// text of a program has, or its first store that is not tidy. With options in their ranges a text
/// without a fault or such a store has one.
pub fn case_sweeps_have_one_answer()
    ensures law { HaveOneCaseAnswer }
{
    // The law rests on these; the calls do nothing.
    faults_tell_cases();
    images_are_one();
    runs_are_there();
    schedules_have_one_answer();
    sweeps_are_fair();
    schedules_are_written();
    texts_read_as_written();
}
