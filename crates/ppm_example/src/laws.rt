//! The laws.
ghost use Rattle.ppm_example.specs.Correct.{ExamplesArePrograms, ExamplesSum};

use ppm_cut_correct::{end_as_meant, start_with_input};
use ppm_rows::trees_are_within;
use ppm_tree::{end_whole, have_one_end, spend_their_turns};

/// The text that `self` makes of a size from 1 to 4,096 and any seed has the tree of the example for
/// its program: it is lexed and parsed within all limits, admitted, and within the bounds of the
/// compiler.
pub fn examples_are_programs()
    ensures law { ExamplesArePrograms }
{}

/// The program of the example ends in one way: with the sum of its values in the array's first word
/// and the last value in its last; its code, run depth first, makes one fork less than there are
/// values, in at most 14 capsules a value, and takes at most 27 words a value.
pub fn examples_sum()
    ensures law { ExamplesSum }
{
    // The law rests on these; the calls do nothing.
    trees_are_within();
    have_one_end();
    spend_their_turns();
    end_whole();
    start_with_input();
    end_as_meant();
}
