//! That runs and replays by places with hard faults end, shown by calls that do nothing.
ghost use Rattle.ppm_progress.specs.Replays.{ReplaysEndByPlaces};
ghost use Rattle.ppm_takeover.specs.Laps.{LapsHaveWorkOrTakeover, LegsEndByPlaces, RunsEndByPlaces};
ghost use Rattle.ppm_takeover.specs.Replays.{LegsReplaysEndByPlaces};

/// With takeover by places, hard faults among the turns: a run from an image of a sound code whose
/// depth-first run ends is over after so many laps: 218 for each capsule of that run, 171 for each
/// fault that undoes work, 7, and one for each pair of processors. In a lap whoever has something
/// to do makes 23 steps or more, and each place at work that a dead processor has left is looked
/// at. In each lap somebody makes a work turn, or a place has a new holder, or the finish word is
/// set by its end. So it is in a leg, after any others, with more laps for what fresh processors do
/// again.
pub fn runs_end_by_places()
    ensures laps { LapsHaveWorkOrTakeover }
    ensures law { RunsEndByPlaces }
    ensures legs { LegsEndByPlaces }
{}

/// With takeover by places the replay of a schedule that spares some processor, from an image of a
/// sound code whose depth-first run ends, is over after so many acts: those of its list, and then
/// 17 (P + 2) rounds for each lap, where there are P processors. Hard faults may be among them.
pub fn replays_end_by_places()
    ensures law { ReplaysEndByPlaces }
{}

/// A replay from the words with which fresh processors go on after legs is over by as many rounds
/// for each lap, but has more laps: for each fault that struck a row in a leg before, for what
/// fresh processors do again, and for the tags that holder words had as they came back.
pub fn legs_replayed_end_by_places()
    ensures law { LegsReplaysEndByPlaces }
{}
