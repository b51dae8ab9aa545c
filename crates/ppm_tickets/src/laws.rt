//! What is true of the branches along every run, shown by calls that do nothing.
ghost use Rattle.ppm_cells.specs.declared.shape.Shape.{Shape};
ghost use Rattle.ppm_code.specs.declared.code.CodeParts.{CodeParts};
ghost use Rattle.ppm_tickets.specs.Entries.{EntriesChangeLawfully, PlacesStayHome};
ghost use Rattle.ppm_tickets.specs.Heirs.{HeirsFollow, HeirsSee, HeirsTake, NoneComesBack, OneInherits, OneTakes};
ghost use Rattle.ppm_tickets.specs.Renewal.{ComesBack, StaysLawful, LawfulInParts};
ghost use Rattle.ppm_tickets.specs.Tickets.{ImagesOpen, InEveryRun, InEveryRunByEntries};
ghost use Rattle.ppm_tickets.specs.Tickets.{LawfulInEveryRun, OneMoreTurn};

/// With takeover by places no branch is forked or taken twice, each that is taken was forked, and
/// each that was forked and not taken is at one place, or left to the strand of its left branch.
/// Entries change lawfully, deques have their shape, and a place that a living processor carries is its
/// own. Turns are to be orderly: what one owes is `IsOrderly`, which the frames' half has to show.
pub fn in_every_run()
    ensures law { (s : Shape) (code : CodeParts) → InEveryRun s code }
{}

/// With takeover by entries no branch is forked or taken twice, each that is taken was forked, and
/// each that was forked and not taken is at one place of those that were not followed, or left to the
/// strand of its left branch. A closed place has at most one living heir, through however many dead ones,
/// and none once it was followed. Entries change lawfully, and deques have their shape but for what was
/// inherited from closed places. Turns are to be orderly, and owe one thing more (`IsInlined`).
pub fn in_every_run_by_entries()
    ensures law { (s : Shape) (code : CodeParts) → InEveryRunByEntries s code }
{}

/// For whoever shows that turns are orderly, with either takeover: what always holds, and that a
/// run of orderly turns with one more is one.
pub fn turns_follow()
    ensures lawful { (s : Shape) (code : CodeParts) → LawfulInEveryRun s code }
    ensures more { (s : Shape) (code : CodeParts) → OneMoreTurn s code }
{}

/// With takeover by places, what always holds does of saved words that come back, where no holder
/// had the last tag, with all processors lost. With either takeover it goes on from any state in which it holds. So it holds
/// of runs in parts, each of orderly turns.
pub fn resumes()
    ensures back { (s : Shape) (code : CodeParts) → ComesBack s code }
    ensures on { (s : Shape) (code : CodeParts) → StaysLawful s code }
    ensures parts { (s : Shape) (code : CodeParts) → LawfulInParts s code }
{}

/// The words of each image are such a beginning.
pub fn images_open()
    ensures law { ImagesOpen }
{}

/// With either takeover, from any words and after any turns: a turn leaves each entry as it is or
/// changes it lawfully, if the block word that it changes, if any, is one of a pool.
pub fn entries_change_lawfully()
    ensures law { (s : Shape) (code : CodeParts) → EntriesChangeLawfully s code }
{}

/// With takeover by entries, where turns change block words of pools alone: processors carry their
/// own places, holder words stay, and the restart word and the message of a place are written by
/// its processor alone, and by none once that is done.
pub fn places_stay_home()
    ensures law { (s : Shape) (code : CodeParts) → PlacesStayHome s code }
{}

/// With takeover by entries, what a place that checks what it stole is about to go on with: a branch that
/// it stole; or what a closed place was at, that none has followed and from which it inherits, through
/// closed places that inherited one from another. It looks at messages of places that steal alone.
pub fn heirs_see()
    ensures law { HeirsSee }
    ensures takes { (s : Shape) (code : CodeParts) → HeirsTake s code }
    ensures one { (s : Shape) (code : CodeParts) → OneTakes s code }
    ensures place { (s : Shape) (code : CodeParts) → OneInherits s code }
{}

/// The turn by which a place goes on with it leaves a lawful state in which that place is followed; and a
/// place that was followed stays so.
pub fn heirs_follow()
    ensures law { (s : Shape) (code : CodeParts) → HeirsFollow s code }
    ensures stays { (s : Shape) (code : CodeParts) → NoneComesBack s code }
{}
