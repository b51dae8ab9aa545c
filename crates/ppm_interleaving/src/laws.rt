//! What is true of runs by schedules, shown by calls that do nothing.
ghost use Rattle.ppm_unseen.specs.Run.{System};
ghost use Rattle.ppm_code.specs.Strands.{Result as Outcome};
ghost use Rattle.ppm_filled.specs.Racing.{OwnWord, Place, Exit};
ghost use Rattle.ppm_interleaving.specs.Falls.{FallsRefute};
ghost use Rattle.ppm_interleaving.specs.Turns.{SchedulesHaveOneRun};

/// Where something falls in the run of a schedule without faults, what is done does not stand in
/// each run without faults, as the law on invisible faults asks.
pub fn falls_refute()
    ensures { (s : System OwnWord Place Exit Outcome) → FallsRefute s }
{}

/// A schedule has one run: two runs by the same turns have the same deeds, and each strand comes to
/// one state in them.
pub fn schedules_have_one_run()
    ensures { (s : System OwnWord Place Exit Outcome) → SchedulesHaveOneRun s }
{}
