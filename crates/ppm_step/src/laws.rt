//! What is true of every run from an opening, shown by calls that do nothing.
ghost use Rattle.ppm_cells.specs.declared.shape.Shape.{Shape};
ghost use Rattle.ppm_code.specs.Code.{IsCode};
ghost use Rattle.ppm_code.specs.declared.code.CodeParts.{CodeParts};
ghost use Rattle.ppm_step.specs.Laws.{FinishStays, FinishIsProposed, FinishHasCause, QuitIsTold};
ghost use Rattle.ppm_step.specs.Laws.{TurnsHaveCause, DoneHasCause, RoomHasCause, RoomHasFrame};
ghost use Rattle.ppm_step.specs.Laws.{RoomHasHeader, RecordLeads};

/// Once the finish word isn't 0 no turn changes it. It stays as it was at the opening, or stands
/// for what steps propose: that the root ended, or trapped in a line, that the pool of one of the
/// places is full, or that words are broken; or it is the word of a quit, of a processor that
/// wasn't done, where it was 0; and each such quit makes it so.
pub fn finish_stays()
    ensures stays { (s : Shape) (code : CodeParts) → IsCode code → FinishStays s code }
    ensures proposed { (s : Shape) (code : CodeParts) → IsCode code → FinishIsProposed s code }
    ensures cause { (s : Shape) (code : CodeParts) → IsCode code → FinishHasCause s code }
    ensures told { (s : Shape) (code : CodeParts) → IsCode code → QuitIsTold s code }
{}

/// The finish word says that the turns of a processor are spent only where this processor quits for
/// them in one of the turns, isn't done then, and finds the finish word 0.
pub fn turns_have_cause()
    ensures { (s : Shape) (code : CodeParts) → IsCode code → TurnsHaveCause s code }
{}

/// A processor is done only where a hard fault of its own was made, or the finish word isn't 0.
pub fn done_has_cause()
    ensures { (s : Shape) (code : CodeParts) → IsCode code → DoneHasCause s code }
{}

/// The finish word says that the pool of a place is full only where a turn found it so: a processor
/// that carries the place began a capsule that asks for more words than the pool has left, in the
/// frame that the restart of the place names, whose header it loaded in its turn before that one.
pub fn room_has_cause()
    ensures finds { (s : Shape) (code : CodeParts) → IsCode code → RoomHasCause s code }
    ensures frame { (s : Shape) (code : CodeParts) → IsCode code → RoomHasFrame s code }
    ensures header { (s : Shape) (code : CodeParts) → IsCode code → RoomHasHeader s code }
{}

/// A processor stands where its record leads it: what was told of its own turns is all that it
/// takes to know.
pub fn records_lead()
    ensures { (s : Shape) (code : CodeParts) → IsCode code → RecordLeads s code }
{}
