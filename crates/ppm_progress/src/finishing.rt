//! That runs and replays without hard faults end, shown by calls that do nothing.
ghost use Rattle.ppm_progress.specs.Laps.{LapsAreThere, LapsHaveWork, RunsEndFairly};
ghost use Rattle.ppm_progress.specs.Replays.{ReplaysEnd};

/// With either takeover, without hard faults, whatever the victims, a run from an image of a sound
/// code whose depth-first run ends is over after so many laps: 218 for each capsule of that run,
/// 171 for each fault that undoes work, and 7. In a lap each processor makes thirteen steps or
/// more, and meets no fault; but whoever is done or would seek work next may do as it likes. In
/// each lap somebody makes a work turn, or the finish word is set by its end. From each state there
/// is a lap.
pub fn runs_end_fairly()
    ensures there { LapsAreThere }
    ensures laps { LapsHaveWork }
    ensures law { RunsEndFairly }
{}

/// With either takeover, the replay of a schedule without hard faults from an image of a sound code
/// whose depth-first run ends is over after so many acts: those of its list, and then thirteen
/// rounds for each lap.
pub fn replays_end()
    ensures law { ReplaysEnd }
{}
