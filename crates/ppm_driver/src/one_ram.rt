//! That a text has no two answers where its RAM is run, shown by a call that does nothing.
ghost use Rattle.ppm_driver.specs.RamRuns.{RamAnswersAreOne, RamFrontsDecide};

use ppm_choice::has_one_run;
use ppm_layout::images_are_one;
use ppm_plan::have_one_answer as plans_have_one_answer;
use ppm_ram::texts_are_of_rams;

/// Where there is one processor, two answers of a text whose RAM is run are one, whatever the other
/// options and the plan. With all options, what stands after more bytes than a text may have
/// changes no answer.
pub fn ram_answers_are_one()
    ensures one { RamAnswersAreOne }
    ensures front { RamFrontsDecide }
{
    // The law rests on these; the calls do nothing.
    texts_are_of_rams();
    images_are_one();
    plans_have_one_answer();
    has_one_run();
}
