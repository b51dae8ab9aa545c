//! What is true of every entry, shown by calls that do nothing.
ghost use Rattle.std.specs.Prelude.{ℕ};
ghost use Rattle.ppm_cells.specs.declared.shape.Takeover.{Takeover};
ghost use Rattle.ppm_cells.specs.DequeChange.{Changes, BoardChanges};
ghost use Rattle.ppm_cells.specs.DequeOrder.{Later, LaterOnBoard};
ghost use Rattle.ppm_cells.specs.DequeLaws.{TransitionsGoOn, NeverReturns, TakenStays, WonWasMade};
ghost use Rattle.ppm_cells.specs.DequeLaws.{OthersTakeForThemselves, OthersLeaveOwn};
ghost use Rattle.ppm_cells.specs.DequeLaws.{OwnStaysUnlessJob};

/// Each transition goes on in the order of its entry.
pub fn transitions_go_on()
    ensures law { TransitionsGoOn }
{}

/// What comes of an entry has a greater tag or is the same, and no entry comes back: so a
/// compare-and-modify that meets the entry that was seen is the change that was meant.
pub fn entries_never_return()
    ensures deque { (how : Takeover) → NeverReturns (Later how) (Changes how) }
    ensures board { NeverReturns LaterOnBoard BoardChanges }
{}

/// A taken entry stays as it is: each job is taken at most once.
pub fn taken_entries_stay()
    ensures deque { (how : Takeover) → TakenStays (Later how) }
    ensures board { TakenStays LaterOnBoard }
{}

/// What others do to an entry does not take it for a place that does nothing to it: so who finds it
/// taken in its own name has taken it.
pub fn others_take_for_themselves()
    ensures law { (how : Takeover) (place : ℕ) → OthersTakeForThemselves how place }
{}

/// Others do nothing to an owner's entry but take it, once; with takeover by places they take jobs
/// alone.
pub fn others_leave_the_own_entries()
    ensures taken { (how : Takeover) (place : ℕ) → OthersLeaveOwn how place }
    ensures places { (place : ℕ) → OwnStaysUnlessJob place }
{}

/// Who has won an entry, as `won` tells it, has made of it what `steal` or `inherit` gave.
pub fn what_is_won_was_made()
    ensures law { WonWasMade }
{}
