//! What is true of every place where a run stands, shown by a call that does nothing.
ghost use Rattle.ppm_standing.specs.Correct.{StandWhereLater};

/// A program's run stands somewhere after so many turns exactly where each end of its meaning takes
/// more.
pub fn stand_where_later()
    ensures law { StandWhereLater }
{}
