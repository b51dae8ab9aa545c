//! What is true of every program, shown by a call that does nothing.
ghost use Rattle.ppm_cut_bounds.specs.Correct.{HaveOneFault};

/// A program is within the bounds, or passes one of them first, and never both.
pub fn have_one_fault()
    ensures law { HaveOneFault }
{}
