//! That a text has no two answers where it is run, shown by a call that does nothing.
ghost use Rattle.ppm_outcomes.specs.Runs.{AnswersAreOne, FrontsDecideAnswers};

use ppm_choice::has_one_run;
use ppm_layout::images_are_one;
use ppm_plan::have_one_answer as plans_have_one_answer;
use ppm_program::have_one_answer as texts_have_one_program;

/// Where there is one processor, two answers of a text are one, whatever the other options and the
/// plan: a processor that acts alone has one run in which it obeys. With all options, what stands
/// after more bytes than a text may have changes no answer.
pub fn answers_are_one()
    ensures one { AnswersAreOne }
    ensures front { FrontsDecideAnswers }
{
    // The law rests on these; the calls do nothing.
    texts_have_one_program();
    images_are_one();
    plans_have_one_answer();
    has_one_run();
}
