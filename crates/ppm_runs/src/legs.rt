//! Runs in legs, shown by calls that do nothing.
ghost use Rattle.ppm_runs.specs.Legs.{ForksOverLegs, LegsComeTo, LegsStay, OnceOverLegs, RoomIsWithinOverLegs};
ghost use Rattle.ppm_runs.specs.Legs.{RoomOverLegs, WorkOverLegs, WorkOverLegsIsWithin256};
ghost use Rattle.ppm_runs.specs.Tags.{TagsStayLow};
ghost use Rattle.ppm_runs.specs.UnbrokenLegs.{FinishStandsOverLegs, NothingBreaksOverLegs};

/// With takeover by places, from an image of a sound code, whatever the legs, which are turns and
/// the words that then came back, and whatever the turns after them: a run's state is come to. No
/// right branch is forked or taken twice over all of it, and an outcome is the depth-first run's, which
/// forks as many.
pub fn legs_come_to()
    ensures stay { LegsStay }
    ensures once { OnceOverLegs }
    ensures law { LegsComeTo }
    ensures forks { ForksOverLegs }
{}

/// Where the finish word says that a pool is full, then or when words came back, and the depth-first
/// run of the root comes to an end, that run takes more words than a pool has. At each moment no place
/// has given out more of its pool than that run takes of all.
pub fn room_over_legs()
    ensures law { RoomOverLegs }
    ensures within { RoomIsWithinOverLegs }
{}

/// Where the depth-first run of the root ends, all work turns of all legs are fewer than 256 for each
/// of its capsules, for each fault that strikes a row of work, and for each processor whenever words
/// come back, since the row that it was in begins again.
pub fn work_over_legs()
    ensures law { WorkOverLegs }
    ensures within { WorkOverLegsIsWithin256 }
{}

/// With takeover by places, from an image of a sound code, whatever the legs and the turns after them:
/// the tag of each place's holder is at most the number of processors, and one more than that whenever
/// words came back. So words that are saved then may come back, unless they did so 2^50 times.
pub fn tags_stay_low()
    ensures law { TagsStayLow }
{}

/// With takeover by places, from an image of a sound code, whatever the legs, at most 2^50, and whatever
/// the turns after them, as long as at most 2^34 + 2^28 turns of them all are work: no processor meets
/// broken words, and the finish word says of none that one has. Whatever they are, it stands for a
/// finish.
pub fn nothing_breaks_over_legs()
    ensures law { NothingBreaksOverLegs }
    ensures stands { FinishStandsOverLegs }
{}
