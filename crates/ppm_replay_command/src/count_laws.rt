//! The law of counts, shown by a call that does nothing.
ghost use Rattle.ppm_replay_command.specs.CountLaws.{CountsAreAsTraced};

use ppm_table::act_counts_tell_turns;
use ppm_trace::counts_are_the_machines;

/// What the processors of a run count together, each by its own turns, is what a trace of the run
/// counts; thefts and takeovers are as many together.
pub fn counts_are_as_traced()
    ensures law { CountsAreAsTraced }
{
    // It rests on these laws; the calls do nothing.
    counts_are_the_machines();
    act_counts_tell_turns();
}
