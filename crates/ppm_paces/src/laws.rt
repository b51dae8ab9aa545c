//! What is true of the word steps of every row, shown by calls that do nothing.
ghost use Rattle.ppm_step.specs.Laws.{reached};
ghost use Rattle.ppm_paces.specs.Costs.{CapsulesAreShort, LooksAreFree, RowsArePaid, SearchesAreFree};
ghost use Rattle.ppm_paces.specs.Paces.{RowsKeepPace};

/// Each row of work but that of a frame makes at most so many word steps, whatever it finds, and each
/// restart word that it stores is paid. It begins again by no way but an exchange of the finish word.
pub fn rows_are_paid()
    ensures law { RowsArePaid }
{}

/// A capsule of at most 160 instructions makes at most 172 word steps, its header's load and its
/// install among them.
pub fn capsules_are_short()
    ensures law { CapsulesAreShort }
{}

/// With takeover by places, nothing has to be set aside for what the rows without work install. By entries
/// that holds of all but Check.
pub fn looks_are_free()
    ensures law { LooksAreFree }
    ensures searches { SearchesAreFree }
{}

/// Along each run each processor keeps the pace of its row: what it has made and what it still may
/// make are together the most of the row's kind.
pub fn rows_keep_pace()
    ensures law { RowsKeepPace }
{}
