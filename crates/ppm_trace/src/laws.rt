//! Laws of traces, each in a function with no body.
ghost use Rattle.ppm_trace.specs.Laws.{CountsAreTheMachines, CountsFollowOn, LinesFollowOn};
ghost use Rattle.ppm_trace.specs.Laws.{ThinnerAreAmong, WindowsAreParts};
ghost use Rattle.ppm_trace.specs.RunCounts.{CountsAreOfTurns};

/// The lines of turns after others are those from the situation that these make, and so is what is
/// counted.
pub fn lines_follow_on()
    ensures lines { LinesFollowOn }
    ensures counts { CountsFollowOn }
{}

/// The lines of rows and those of marks are lines of all turns, unchanged and in their order.
pub fn thinner_lines_are_among()
    ensures law { ThinnerAreAmong }
{}

/// What is told of a run from an act on is a part of the whole: the lines of the turns that come
/// from that act on.
pub fn windows_are_parts()
    ensures law { WindowsAreParts }
{}

/// Where no act of a run comes before the first one that is told, the forks and takes of the tail
/// are those that the machine counts.
pub fn counts_are_the_machines()
    ensures law { CountsAreTheMachines }
{}

/// Each turn of a run is an act, and is work or a look; the forks and takes are those that the turns
/// tell.
pub fn counts_are_of_turns()
    ensures law { CountsAreOfTurns }
{}
