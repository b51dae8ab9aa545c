//! What is true of the runs of codes, shown by calls that do nothing.
ghost use Rattle.ppm_depth.specs.Run.{RunsAreThere};
ghost use Rattle.ppm_depth.specs.Sound.{OrdersComeToOneEnd};

/// In whatever order the strands of a sound code make their steps and come to an end, it is the end
/// of the depth-first run: the same outcome, words and counts.
pub fn orders_come_to_one_end()
    ensures { OrdersComeToOneEnd }
{}

/// Within each number of capsules each code has a run with each input: it comes to its end, or goes
/// on to one capsule more.
pub fn runs_are_there()
    ensures { RunsAreThere }
{}
