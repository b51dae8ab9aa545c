//! What each step of a place keeps, shown by calls that do nothing. The laws of rows are of tidy
//! codes without conflicts.
ghost use Rattle.ppm_kept.specs.Answers.{EndsAsMeant};
ghost use Rattle.ppm_kept.specs.Arriving.{ArriveRowKeeps};
ghost use Rattle.ppm_kept.specs.Bearing.{HeirsBear, TurnsBear, TurnsBearLeft};
ghost use Rattle.ppm_kept.specs.Births.{AllBirthsStay, OpeningsHaveNone, RowsAreSteady};
ghost use Rattle.ppm_kept.specs.Credit.{CapsulesAreCounted, CreditStays, CreditStaysLeft, HandedOwes};
ghost use Rattle.ppm_kept.specs.Counting.{CountsAreExact, HeirsCountNone};
ghost use Rattle.ppm_kept.specs.Copies.{AllCopiesStay, OpeningsHaveCopies};
ghost use Rattle.ppm_kept.specs.Fates.{AllFatesShow, AllFatesStay, NoneIsLeft};
ghost use Rattle.ppm_kept.specs.HeirTurns.{HandedSame, HeirTurnsBear, HeirTurnsKeep, UnrunsAreUntaken};
ghost use Rattle.ppm_kept.specs.Heirs.{HeirsKeep};
ghost use Rattle.ppm_kept.specs.JoinLast.{JoinRowKeeps, LastJoinRowKeeps};
ghost use Rattle.ppm_kept.specs.JoinValues.{AllBranchValuesPass};
ghost use Rattle.ppm_kept.specs.Joins.{EarlyJoinRowKeeps};
ghost use Rattle.ppm_kept.specs.Laws.{BumpRowKeeps, FramesRun, RunRowKeeps};
ghost use Rattle.ppm_kept.specs.Left.{TurnsKeepLeft};
ghost use Rattle.ppm_kept.specs.Loads.{AllLoadsShow};
ghost use Rattle.ppm_kept.specs.Openings.{ImagesOpen, OpeningsAreKept};
ghost use Rattle.ppm_kept.specs.Others.{OthersKeep};
ghost use Rattle.ppm_kept.specs.Places.{MachinesOpen, TurnsShow};
ghost use Rattle.ppm_kept.specs.Pushing.{AllUntakenStays, Push1RowKeeps, Push2RowKeeps};
ghost use Rattle.ppm_kept.specs.Returns.{ExchangesAreSeen, UnwindRowKeeps};
ghost use Rattle.ppm_kept.specs.Rooms.{RoomIsBounded};
ghost use Rattle.ppm_kept.specs.Spent.{FullPoolsAreSpent};
ghost use Rattle.ppm_kept.specs.Steps.{TurnsKeep};
ghost use Rattle.ppm_kept.specs.Stops.{TurnsKeepOn, WordsStay};
ghost use Rattle.ppm_kept.specs.Takes.{TakeRowsKeep};
ghost use Rattle.ppm_kept.specs.Turns.{StepsAreSeen, StoresAreCells};
ghost use Rattle.ppm_kept.specs.Unruns.{AllUnrunsStay};

/// A capsule of a frame under way, closed by the stores of its end: it goes on by its loads, its
/// stores are steps of its strand, and its install is the step of the whole capsule.
pub fn frames_run()
    ensures law { FramesRun }
{}

/// What the machine's word steps make of the words by cells; and a capsule's stores are into cells
/// that frames have.
pub fn steps_are_seen()
    ensures steps { StepsAreSeen }
    ensures cells { StoresAreCells }
{}

/// An exchange of a cell that frames have is one of the words by cells; any other is not seen.
pub fn exchanges_are_seen()
    ensures law { ExchangesAreSeen }
{}

/// An opening is kept, and the words of an image whose root is calm are one. Its tree is then the
/// strand with which the depth-first run begins.
pub fn openings_are_kept()
    ensures kept { OpeningsAreKept }
    ensures images { ImagesOpen }
{}

/// What a step of a place may write leaves at every other place what it has done, its clean words,
/// its ceiling and its order word.
pub fn others_keep()
    ensures law { OthersKeep }
{}

/// Frames that run stand at one of their two headers: at an opening, and, as what is kept says too,
/// after each step in the rows Run, Bump, Unwind, Arrive and Join.
pub fn copies_stay()
    ensures steps { AllCopiesStay }
    ensures openings { OpeningsHaveCopies }
{}

/// Each step of a place in a row of kind Run keeps the words: the tree of the skeleton stands in
/// them and is ahead of the root.
pub fn run_row_keeps()
    ensures law { RunRowKeeps }
{}

/// Each step in a row of kind Bump keeps the words in that way.
pub fn bump_row_keeps()
    ensures law { BumpRowKeeps }
{}

/// Each step in a row of kind Unwind keeps them: a value or a trap passes to the caller, a branch
/// gives its outcome, and the root ends the run.
pub fn unwind_row_keeps()
    ensures law { UnwindRowKeeps }
{}

/// Each step in a row of kind Push1 keeps them: at the last slot its strand is to run the right
/// branch, which nobody has.
pub fn push1_row_keeps()
    ensures law { Push1RowKeeps }
{}

/// Each step in a row of kind Push2 keeps them, by the exchange of the entry, made or not: which of
/// the two it was the deque's half says.
pub fn push2_row_keeps()
    ensures law { Push2RowKeeps }
{}

/// A right branch that is not pushed stays so beside a place's strand, whatever else is swapped in
/// the tree with as many leaves of the place and the same mark.
pub fn untaken_stays()
    ensures law { AllUntakenStays }
{}

/// Each step in a row of kind Arrive keeps them: the exchange of the order word, first or not, and
/// the install of Join.
pub fn arrive_row_keeps()
    ensures law { ArriveRowKeeps }
{}

/// Each step in a row of kind Join whose branch came first, or whose strand runs both, keeps them:
/// it goes idle, or on with the right branch.
pub fn early_join_row_keeps()
    ensures law { EarlyJoinRowKeeps }
{}

/// Each step in a row of kind Join whose branch came last keeps them: a trap goes up, or both
/// values pass, into two slots or one, and the frame that waited goes on.
pub fn last_join_row_keeps()
    ensures law { LastJoinRowKeeps }
{}

/// Each step in a row of kind Join keeps them, whichever branch came first.
pub fn join_row_keeps()
    ensures law { JoinRowKeeps }
{}

/// Each step in a row of a kind without a strand, which pops, looks for work or takes a place over,
/// keeps them. A right branch that it begins waited for a taker, at the frame that begins, and its
/// strand is then the place's. Two things the deque's half has to say: that the branch waits when its
/// offset is loaded (`IsWaiting`), and that no other place is about to begin it (`IsAlone`). Where a
/// place goes on with what it inherited, with takeover by entries, that is `heirs_keep`.
pub fn take_rows_keep()
    ensures law { TakeRowsKeep }
{}

/// Where a place goes on with what it inherited, with takeover by entries: the strand of the closed
/// place is then its own, and what that place had given out of its pool stays as it is. The closed
/// place's counter counts as its ceiling, and its free words as none; blocks are forked upwards still.
pub fn heirs_keep()
    ensures law { HeirsKeep }
    ensures births { HeirsBear }
{}

/// The state by places, from the words of a machine and from where its processors stand: each turn of
/// a processor that is alone in a place is a step of that place, of those that the laws of rows speak
/// of; and a machine that opens an image is kept.
pub fn turns_show()
    ensures turns { TurnsShow }
    ensures opens { MachinesOpen }
{}

/// What a place loads in a capsule, or in a row of its strand, is a cell that frames have, so the words
/// by cells show what the load finds.
pub fn loads_show()
    ensures law { AllLoadsShow }
{}

/// A whole turn, with takeover by places: the state by places is kept, with the skeleton after it, or
/// the turn stops the run with a finish that is no outcome. What it takes from the deque's half is
/// `ActsSo`: the processor is alone in its place, how its row was come to, and of takes that the branch
/// waits and that no other place is about to begin it.
/// As the finish word then says no outcome, all is kept there too, and after it (`all`); so it is where
/// words come back that were saved, with all processors lost.
pub fn turns_keep()
    ensures law { TurnsKeep }
    ensures all { TurnsKeepOn }
    ensures back { WordsStay }
{}

/// With either takeover, of the state with the places left out that others have followed: a turn by which
/// no place goes on with what it inherited keeps it. Where one does, that is `heirs_keep`; by places none
/// was followed, and this is `turns_keep`. So of the blocks that are forked.
pub fn turns_keep_left()
    ensures law { TurnsKeepLeft }
    ensures births { TurnsBearLeft }
{}

/// What the tree owes for word steps still to come: a turn pays what it takes off, and takes on no more
/// than 36, where a capsule ends. So it is with the places left out that others have followed, and who
/// follows owes the same.
pub fn credit_stays()
    ensures law { CreditStays }
    ensures left { CreditStaysLeft }
    ensures handed { HandedOwes }
{}

/// With either takeover a turn counts the capsule that ends by it, and the fork that this opens, and
/// nothing else; one by which a place goes on with what it inherited counts nothing. So by places no
/// turn counts fewer capsules than were counted before.
pub fn capsules_are_counted()
    ensures law { CapsulesAreCounted }
    ensures exact { CountsAreExact }
    ensures heirs { HeirsCountNone }
{}

/// A turn by which a place goes on with what it inherited keeps the state with that closed place left out
/// too; and so of the blocks that are forked.
pub fn heir_turns_keep()
    ensures law { HeirTurnsKeep }
    ensures births { HeirTurnsBear }
    ensures untaken { UnrunsAreUntaken }
    ensures unruns { HandedSame }
{}

/// From a state by places that is kept, with a finish word that says an outcome: the depth-first run of
/// the root comes to an end with that outcome, and the arrays have the words of that end.
pub fn ends_as_meant()
    ensures law { EndsAsMeant }
{}

/// Whatever places do, none gives out more of its pool than the depth-first run takes of all.
/// Where one finds its pool full, that run takes more words than a pool has.
pub fn room_is_bounded()
    ensures law { RoomIsBounded }
    ensures spent { FullPoolsAreSpent }
{}

/// Blocks are opened upwards in each pool: those that were forked lie below what a place may still
/// open, and so they do after each step, with the one that is forked then, which is new. Rows of
/// other kinds than Bump store into no counter and install none.
pub fn forks_are_new()
    ensures stay { AllBirthsStay }
    ensures openings { OpeningsHaveNone }
    ensures steady { RowsAreSteady }
{}

/// This holds over a whole turn, with takeover by places, of the blocks of `forks_of` and those
/// before.
pub fn turns_bear()
    ensures law { TurnsBear }
{}

/// The right branches that no place has run yet: each step's skeleton has the same ones, but for the
/// one that it opens, pushes, takes, or goes on with.
pub fn unruns_stay()
    ensures law { AllUnrunsStay }
{}

/// What has come of each right branch (`Fate`) and what the skeleton shows agree, both ways, after each
/// step: so a branch that was offered waits in the tree, a held one that its join begins was left to
/// it, and at the end of a run none is left that was forked and not begun.
pub fn fates_agree()
    ensures stay { AllFatesStay }
    ensures show { AllFatesShow }
    ensures ends { NoneIsLeft }
{}

/// The tree's half of a join where both branches ended: each store of a value into its slot is a
/// step, and the install is the join.
pub fn branch_values_pass()
    ensures law { AllBranchValuesPass }
{}
