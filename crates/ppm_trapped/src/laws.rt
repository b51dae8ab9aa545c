//! What is true of every point at which a run traps, shown by calls that do nothing.
ghost use Rattle.ppm_trapped.specs.Correct.{TrapPointsAreOne, TrapPointsTrap, TrapsHavePoints};

/// Where a program traps at a point, its meaning is a run to that trap.
pub fn trap_points_trap()
    ensures law { TrapPointsTrap }
{}

/// A program traps at one point at most.
pub fn trap_points_are_one()
    ensures law { TrapPointsAreOne }
{}

/// A program whose meaning is a run to a trap traps at a point with it.
pub fn traps_have_points()
    ensures law { TrapsHavePoints }
{}
