//! What is true of every text, shown by a call that does nothing.
ghost use Rattle.ppm_program.specs.Correct.{HaveOneAnswer};

use ppm_cut_bounds::have_one_fault as have_one_bound_fault;
use ppm_regions::have_one_fault as have_one_region_fault;
use ppm_rows::have_one_answer as tokens_have_one_answer;
use ppm_text::have_one_reading;

/// A text has one program, or is refused for one reason, and never both.
pub fn have_one_answer()
    ensures law { HaveOneAnswer }
{
    // The law rests on these; the calls do nothing.
    have_one_reading();
    tokens_have_one_answer();
    have_one_region_fault();
    have_one_bound_fault();
}
