//! That a text has no two answers where its run is counted, shown by calls that do nothing.
ghost use Rattle.ppm_driver.specs.CountedCaseRuns.{CountedCaseAnswersAreOne};
ghost use Rattle.ppm_outcomes.specs.CountedRuns.{CountedAnswersAreOne};

use ppm_case::faults_tell_cases;
use ppm_choice::has_one_run;
use ppm_layout::images_are_one;
use ppm_plan::have_one_answer as plans_have_one_answer;
use ppm_program::have_one_answer as texts_have_one_program;

/// Where there is one processor, two answers of a text are one, their counts included, whatever the
/// other options and the plan. With all options, what stands after more bytes than a text may have
/// changes no answer.
pub fn counted_answers_are_one()
    ensures law { CountedAnswersAreOne }
{
    // The law rests on these; the calls do nothing.
    texts_have_one_program();
    images_are_one();
    plans_have_one_answer();
    has_one_run();
}

/// Where there is one processor, two answers of a text whose case is run are one, their counts
/// included, whatever the other options and the plan. With all options, what stands after more bytes
/// than a case may have changes no answer.
pub fn counted_case_answers_are_one()
    ensures law { CountedCaseAnswersAreOne }
{
    // The law rests on these; the calls do nothing.
    faults_tell_cases();
    images_are_one();
    plans_have_one_answer();
    has_one_run();
}
