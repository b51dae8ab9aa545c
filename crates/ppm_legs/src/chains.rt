//! That chains of stops go on, shown by a call that does nothing.
ghost use Rattle.ppm_legs.specs.Chains.{StopsBeginChains, StopsGoOnChains};

use ppm_outcomes::{left_words_come_back, runs_in_legs_are_as_code};
use ppm_saved_reader::faults_tell_saved_texts;

/// A text that `stop` wrote of a sound code begins a chain. What `stop` writes of a text of a chain
/// is the next one, whatever the schedule is: it is the text of a state that the code left, over one
/// stop more, and no other. Its work turns are those before and at most the acts of the stop, and no
/// more faults struck a row of work than those before and those that the schedule has. There may be
/// fewer than 2^50 stops.
pub fn stops_go_on_chains()
    ensures begin { StopsBeginChains }
    ensures law { StopsGoOnChains }
{
    // The law rests on these; the calls do nothing.
    runs_in_legs_are_as_code();
    left_words_come_back();
    faults_tell_saved_texts();
}
