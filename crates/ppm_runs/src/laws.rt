//! What turns owe, shown by calls that do nothing.
ghost use Rattle.ppm_runs.specs.Deques.{DequesAreSound, DequesStaySound};
ghost use Rattle.ppm_runs.specs.Entries.{HalvesStay, HeirsLeadOn, OnceByEntries, OnceInEachRun, RunsEndByEntries};
ghost use Rattle.ppm_runs.specs.Entries.{RunsEndSo, RunsForkSo, RunsStayHeired};
ghost use Rattle.ppm_runs.specs.Follow.{HalvesGoOn, HalvesOwe, HeirsLead};
ghost use Rattle.ppm_runs.specs.Joint.{JointsStay};
ghost use Rattle.ppm_runs.specs.Laws.{BirthsFollow, BrokenFollow, TakersHave, TurnsAreOrderly, TurnsGoOn};
ghost use Rattle.ppm_runs.specs.Moments.{OnceAtEachMoment, RunsStay, TurnsLeadOn};
ghost use Rattle.ppm_runs.specs.Openings.{RunsOpen};
ghost use Rattle.ppm_runs.specs.Outcomes.{RunsEnd};
ghost use Rattle.ppm_runs.specs.Renewals.{PartsComeTo, RunsComeBack};
ghost use Rattle.ppm_runs.specs.Spent.{RoomIsSpent, RoomIsWithin};
ghost use Rattle.ppm_runs.specs.Unbroken.{NothingBreaks};
ghost use Rattle.ppm_runs.specs.Whole.{JoinsStay, RunsComeTo};
ghost use Rattle.ppm_runs.specs.Work.{UndoneAreStruck, WorkIsBounded, WorkIsWithin256};

/// With takeover by places each turn is orderly in a state of a run: block words that it changes
/// are those of pools, a block that it forks was not forked before, and a branch that it begins
/// where the left one joins was left to that strand.
pub fn turns_are_orderly()
    ensures law { TurnsAreOrderly }
{}

/// With takeover by places a branch that a place is about to push or to take is at that place, so
/// no other is about to take it.
pub fn takers_have()
    ensures law { TakersHave }
{}

/// With takeover by places each turn of a run's state leads to words that are lawful, and that show
/// the tree after it, or the run was stopped by a finish that is no outcome.
pub fn turns_go_on()
    ensures law { TurnsGoOn }
{}

/// With takeover by places blocks are forked upwards still after each turn of a run's state; and who
/// has met broken words knows a place, or that it is at none.
pub fn births_follow()
    ensures births { BirthsFollow }
    ensures broken { BrokenFollow }
{}

/// A machine that opens an image of a sound code is in the state of a run.
pub fn runs_open()
    ensures law { RunsOpen }
{}

/// Where the finish word says an outcome, the depth-first run of the root ends so, each right branch
/// that was forked was taken, none twice, and no place has given out more of its pool than that run
/// takes of all.
pub fn runs_end()
    ensures law { RunsEnd }
{}

/// With takeover by places, from an image of a sound code, whatever the turns: where the finish word
/// says an outcome the depth-first run of the root ends so, and each branch that was forked was taken
/// once. What joins the two halves of a run's state stays so after each turn that keeps the words.
pub fn runs_come_to()
    ensures law { RunsComeTo }
    ensures joins { JoinsStay }
{}

/// With takeover by places, from an image of a sound code, whatever the turns, a run's state is come to,
/// also where a turn stops the run, and after it; so at each moment no right branch was forked twice,
/// and none was taken twice.
pub fn runs_stay()
    ensures leads { TurnsLeadOn }
    ensures stay { RunsStay }
    ensures once { OnceAtEachMoment }
{}

/// From an image of a sound code, whatever the takeover, and whatever the turns: where the finish word says
/// that a pool is full, and the depth-first run of the root comes to an end, that run takes more words
/// than a pool has. At each moment, also after a stop, no place has given out more of its pool than that
/// run takes of all.
pub fn room_is_spent()
    ensures law { RoomIsSpent }
    ensures within { RoomIsWithin }
{}

/// With takeover by places, saved words of a run's state come back, and that is a run's state again. So
/// in a run in parts, whatever the turns, no right branch is forked or taken twice over all of it, and an
/// outcome is that of the depth-first run.
pub fn runs_come_back()
    ensures back { RunsComeBack }
    ensures parts { PartsComeTo }
{}

/// From an image of a sound code, whatever the takeover and the turns, as long as at most 2^34 of them are
/// work: no processor meets broken words, and the finish word says of none that one has. The deques' half
/// is that a turn keeps what is sound of rows, entries, tops, holders and restart words.
pub fn nothing_breaks()
    ensures deques { DequesAreSound }
    ensures halves { DequesStaySound }
    ensures law { NothingBreaks }
{}

/// From an image of a sound code, with either takeover, whatever the turns: where the depth-first run of
/// the root ends, all work turns together are no more than 218 for each of its capsules, 171 for each
/// fault that undoes work, and 6; so they are fewer than 256 for each. By places the faults that undo
/// work are those that strike a row of it.
pub fn work_is_bounded()
    ensures law { WorkIsBounded }
    ensures within { WorkIsWithin256 }
    ensures struck { UndoneAreStruck }
{}

/// With takeover by entries, a turn by which a place goes on with what it inherited leads to words that are
/// lawful, and that show the tree with that strand as its own, with the closed place left out.
pub fn heirs_lead()
    ensures law { HeirsLead }
    ensures others { HalvesGoOn }
    ensures owe { HalvesOwe }
{}

/// With either takeover what joins the halves of a run's state does so again after each turn by which
/// no place goes on with what it inherited.
pub fn joints_stay()
    ensures law { JointsStay }
{}

/// With takeover by entries, from an image of a sound code, whatever the turns, a run's state is come to,
/// with some places left out that others have followed; so at each moment no right branch was forked
/// twice, and none was taken twice. Where the finish word says an outcome the depth-first run of the root
/// ends so, with the words of the arrays as they are, and each branch that was forked was taken once.
pub fn runs_stay_heired()
    ensures leads { HeirsLeadOn }
    ensures stay { RunsStayHeired }
    ensures once { OnceByEntries }
    ensures ends { RunsEndByEntries }
{}

/// Whatever the takeover, from an image of a sound code, whatever the turns: at each moment both halves of
/// a run's state hold, so no right branch was forked twice, and none was taken twice; where the finish word
/// says an outcome the depth-first run of the root ends so, with the words of the arrays as they are, and
/// each branch that was forked was taken: as many as that run forks.
pub fn runs_end_so()
    ensures halves { HalvesStay }
    ensures once { OnceInEachRun }
    ensures ends { RunsEndSo }
    ensures forks { RunsForkSo }
{}
