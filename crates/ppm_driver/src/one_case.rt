//! That a text has no two answers where its case is run, shown by a call that does nothing.
ghost use Rattle.ppm_driver.specs.CaseRuns.{CaseAnswersAreOne, CaseFrontsDecide};

use ppm_case::faults_tell_cases;
use ppm_choice::has_one_run;
use ppm_layout::images_are_one;
use ppm_plan::have_one_answer as plans_have_one_answer;

/// Where there is one processor, two answers of a text whose case is run are one, whatever the
/// other options and the plan. With all options, what stands after more bytes than a case may have
/// changes no answer.
pub fn case_answers_are_one()
    ensures one { CaseAnswersAreOne }
    ensures front { CaseFrontsDecide }
{
    // The law rests on these; the calls do nothing.
    faults_tell_cases();
    images_are_one();
    plans_have_one_answer();
    has_one_run();
}
