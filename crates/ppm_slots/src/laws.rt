//! What is true of the frames and blocks of every code, shown by calls that do nothing.
ghost use Rattle.ppm_slots.specs.Blank.{WritesAreSlots};
ghost use Rattle.ppm_slots.specs.Trim.{FramesStayTrim};

/// A frame with 0 after its slots, whose targets are slots, opens such frames and is one again
/// with each value that it takes; its capsules store into its slots alone.
pub fn frames_stay_trim()
    ensures law { FramesStayTrim }
{}

/// What a capsule of a tidy code writes into its block is a slot of a frame that its end builds.
pub fn writes_are_slots()
    ensures law { WritesAreSlots }
{}
