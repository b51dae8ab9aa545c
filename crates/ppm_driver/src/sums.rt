//! That `self` tells the sum of its values, shown by a call that does nothing.
ghost use Rattle.ppm_driver.specs.Examples.{ExamplesSumUp};

use ppm_example::{examples_are_programs, examples_sum};
use ppm_outcomes::runs_are_as_programs;
use ppm_program::have_one_answer as texts_have_one_program;

/// With options in their ranges each answer of `self` is want of memory or the line of its example: as
/// many values as were asked for, one fork less, the sum of the values drawn, and the last of them.
pub fn examples_sum_up()
    ensures law { ExamplesSumUp }
{
    // The law rests on these; the calls do nothing.
    runs_are_as_programs();
    texts_have_one_program();
    examples_are_programs();
    examples_sum();
}
