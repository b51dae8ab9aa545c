//! Laws of obedience, each in a function with no body.
ghost use Rattle.ppm_cells.specs.declared.shape.Shape.{Shape};
ghost use Rattle.ppm_code.specs.Code.{IsCode};
ghost use Rattle.ppm_code.specs.declared.code.CodeParts.{CodeParts};
ghost use Rattle.ppm_choice.specs.Laws.{HasOneRun, ParksWhereItRests, TellsRecord, TellsNoMore};
ghost use Rattle.ppm_choice.specs.Laws.{TellsByRecord, QuitsWhereSpent, KeeperEnds, RunsFinish};

/// A processor that acts alone has one run at most in which it obeys.
pub fn has_one_run()
    ensures { (s : Shape) (code : CodeParts) → HasOneRun s code }
{}

/// A processor parks exactly where it rests and is to park. What is told of it is its record, and
/// where it is to park event 7 before each act at which it has parked. All of it follows from its
/// record.
pub fn tells_where_it_parks()
    ensures parks { ParksWhereItRests }
    ensures tells { (s : Shape) (code : CodeParts) → TellsRecord s code }
    ensures leaves { (s : Shape) (code : CodeParts) → TellsNoMore s code }
    ensures alone { (s : Shape) (code : CodeParts) → IsCode code → TellsByRecord s code }
{}

/// A processor that obeys quits only for its turns, and makes as many work turns as it may make; a
/// keeper that obeys is done after the run, and meets no hard fault. So after a run from an
/// opening in which each processor obeys the finish word isn't 0: a step proposed it, or it says
/// whose turns are spent, or it stood there before.
pub fn runs_finish()
    ensures spent { (s : Shape) (code : CodeParts) → QuitsWhereSpent s code }
    ensures keeper { (s : Shape) (code : CodeParts) → KeeperEnds s code }
    ensures finish { (s : Shape) (code : CodeParts) → IsCode code → RunsFinish s code }
{}
