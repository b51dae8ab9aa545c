//! That resumed runs with turns and room enough end, and all laws of resumed runs, shown by calls
//! that do nothing.
ghost use Rattle.ppm_outcomes.specs.CodeResumes.{ResumesOfCodeComplete};
ghost use Rattle.ppm_outcomes.specs.ResumeCompleteness.{ResumesComplete};
ghost use Rattle.ppm_outcomes.specs.ResumeLaws.{ResumeLaws};

use crate::legs::{left_words_come_back, runs_in_legs_are_as_code};
use crate::meant::programs_are_as_code;
use ppm_plan::have_one_answer as plans_have_one_answer;
use ppm_saved::saved_texts_tell_states;
use ppm_saved_reader::faults_tell_saved_texts;

/// With options in their ranges, the text of a state that a sound code left, or a program, and a
/// plan that is accepted for its processors: where the turns of a processor are at least 256 for
/// each capsule that the code runs depth first, each fault of all legs and of the plan, and each
/// processor whenever words came back, and a pool has as many words as that run takes, each answer
/// of the text is that the resumed run ended.
pub fn resumes_complete()
    ensures law { ResumesComplete }
    ensures of_code { ResumesOfCodeComplete }
{
    // The law rests on these; the calls do nothing.
    runs_in_legs_are_as_code();
    programs_are_as_code();
    left_words_come_back();
    plans_have_one_answer();
    saved_texts_tell_states();
    faults_tell_saved_texts();
}

/// All laws on which the rows of `resume` rest: runs in legs end as their codes, what a sound code
/// left comes back, what is resumed with turns and room enough ends, and each program is as its
/// code.
pub fn resume_laws()
    ensures law { ResumeLaws }
{
    // It is made of these; the calls do nothing.
    runs_in_legs_are_as_code();
    left_words_come_back();
    resumes_complete();
    programs_are_as_code();
}
