//! Laws of runs, each in a function with no body.
ghost use Rattle.std.specs.Prelude.{ℕ};
ghost use Rattle.ppm_cells.specs.declared.shape.Shape.{Shape};
ghost use Rattle.ppm_code.specs.declared.code.CodeParts.{CodeParts};
ghost use Rattle.ppm_words.specs.declared.event.Event.{Event};
ghost use Rattle.ppm_core.specs.Laws.{FollowOn, TellOn, DoneIsDone};

/// The turns of a list after another one go on from what the first has made.
pub fn turns_follow_on()
    ensures { (s : Shape) (code : CodeParts) → FollowOn s code }
{}

/// What they tell comes after what the first has told: blocks and processors that are counted, and
/// events.
pub fn turns_tell_on()
    ensures counted { (s : Shape) (code : CodeParts) → TellOn ℕ s code }
    ensures events { (s : Shape) (code : CodeParts) → TellOn Event s code }
{}

/// A turn of a processor that is done changes nothing.
pub fn done_is_done()
    ensures { (s : Shape) (code : CodeParts) → DoneIsDone s code }
{}
