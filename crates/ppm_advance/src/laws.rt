//! What a tree has to do, shown by calls that do nothing.
ghost use Rattle.ppm_advance.specs.Advance.{AdvancingAreReady, AllAdvance, AllAdvanceThere};
ghost use Rattle.ppm_advance.specs.Turns.{TurnsAdvance};

/// In a tree that advances a place has a strand, or a right branch waits to be taken; and the
/// changes that a run makes of trees leave it so.
pub fn advancing_trees_are_ready()
    ensures law { AdvancingAreReady }
    ensures stay { AllAdvance }
    ensures there { AllAdvanceThere }
{}

/// With either takeover, a turn by which no place goes on with what it inherited leaves a tree that
/// advances, if no left branch comes first beside a right one that isn't pushed.
pub fn trees_advance()
    ensures law { TurnsAdvance }
{}
