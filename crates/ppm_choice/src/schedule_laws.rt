//! Laws of the run of each schedule, each in a function with no body.
ghost use Rattle.ppm_cells.specs.declared.shape.Shape.{Shape};
ghost use Rattle.ppm_code.specs.Code.{IsCode};
ghost use Rattle.ppm_code.specs.declared.code.CodeParts.{CodeParts};
ghost use Rattle.ppm_choice.specs.ScheduleLaws.{MakesNoMore, GoesOn, SkipsDone, KeepsOrder};
ghost use Rattle.ppm_choice.specs.ScheduleLaws.{LeavesOutNoMore, UnfinishedIsExact, NoneQuits};

/// The run of a schedule is as long as it can be: it has no more turns than may be made, and it
/// stops before only where the finish word isn't 0 or all processors are done.
pub fn schedules_go_on()
    ensures no_more { (s : Shape) (code : CodeParts) → MakesNoMore s code }
    ensures no_fewer { (s : Shape) (code : CodeParts) → GoesOn s code }
{}

/// No turn of it is of a processor that is done.
pub fn schedules_skip_done()
    ensures { (s : Shape) (code : CodeParts) → SkipsDone s code }
{}

/// Its turns are those of the acts that are due, in their order, each with the victim that the rule
/// names. An act is left out exactly where no turn is left, its processor is done, or it comes
/// after the list and the finish word isn't 0.
pub fn schedules_keep_order()
    ensures order { (s : Shape) (code : CodeParts) → KeepsOrder s code }
    ensures no_more { (s : Shape) (code : CodeParts) → LeavesOutNoMore s code }
{}

/// From an image a schedule is unfinished only after exactly as many acts as may be made: its
/// keeper lives as long as the finish word is 0. A run that has ended says that the root ended or
/// trapped, that a pool was full or that words are broken.
pub fn unfinished_is_exact()
    ensures exact { (s : Shape) (code : CodeParts) → IsCode code → UnfinishedIsExact s code }
    ensures none_quits { (s : Shape) (code : CodeParts) → IsCode code → NoneQuits s code }
{}
