//! What the counts of acts are worth, as a call that does nothing.
ghost use Rattle.ppm_table.specs.Counting.{ActCountsTellTurns};

/// What the processors of a run have counted together are the numbers of its turns: of all of them,
/// of work turns, forks, takes, soft faults and hard ones. Each turn is one of a processor that
/// isn't done.
pub fn act_counts_tell_turns()
    ensures law { ActCountsTellTurns }
{}
