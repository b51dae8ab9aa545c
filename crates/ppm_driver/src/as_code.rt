//! That answers of runs are as their codes and their RAMs, shown by calls that do nothing.
ghost use Rattle.ppm_driver.specs.CodeRuns.{AnswersAreAsCode};
ghost use Rattle.ppm_driver.specs.RamEnds.{AnswersAreAsRams};

use ppm_outcomes::runs_are_as_code;
use ppm_ram_code::{ends_as_the_ram, is_sound, keeps_the_rules as ram_code_keeps_the_rules};

/// With options in their ranges, and a plan: the answer of a run of a sound code in which each
/// processor obeys is the outcome of the code, run depth first; or that turns or room are not
/// enough for it.
pub fn answers_are_as_code()
    ensures law { AnswersAreAsCode }
{
    // The law rests on this one; the call does nothing.
    runs_are_as_code();
}

/// With options in their ranges, and a plan: the answer of a run of a RAM's code on its memory, in
/// which each processor obeys, is the memory with which the RAM ends, or its trap; or that turns
/// are not enough for its steps. It is never that a pool is full, or that words are broken.
pub fn answers_are_as_rams()
    ensures law { AnswersAreAsRams }
{
    // The law rests on these; the calls do nothing.
    answers_are_as_code();
    ram_code_keeps_the_rules();
    is_sound();
    ends_as_the_ram();
}
