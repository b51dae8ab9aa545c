//! Each moment of each run, shown by calls that do nothing. From an image of a sound code, whatever the takeover and
//! the turns, faults among them; and with takeover by places over legs.
ghost use Rattle.ppm_runs.specs.EveryRun.{LegsAreOrderly, RunsAreOrderly};
ghost use Rattle.ppm_runs.specs.EveryRun.{TicketsByEntries, TicketsByPlaces, TicketsOverLegs};
ghost use Rattle.ppm_runs.specs.Trees.{BeginnersAreCounted, RunnersAreCounted, RunnersAreCountedOverLegs};
ghost use Rattle.ppm_runs.specs.Trees.{SeekersAreIdle, SeekersAreIdleOverLegs};
ghost use Rattle.ppm_runs.specs.Trees.{WhatIsLeftEndsSo, WhatIsLeftOverLegs};

/// The turns of each run are orderly, so what the tickets say of such runs holds of each. With takeover by
/// places the deques have their shape, no two living processors carry one place, and each right branch that
/// was forked and not taken is at one place, or left to the strand of its left branch; it is taken at most
/// once. By entries so it is but for places that were followed, each place is its own processor's, and a closed
/// place's strand comes to one heir, once. Each next turn leaves an entry as it is, or changes it lawfully.
/// By places the same holds at each moment of a run in legs. Forks and takes are then those of all legs, and
/// the processors that live are those of the leg under way. Words that come back leave each entry as it is.
pub fn runs_are_orderly()
    ensures law { RunsAreOrderly }
    ensures by_places { TicketsByPlaces }
    ensures by_entries { TicketsByEntries }
    ensures over_legs { LegsAreOrderly }
    ensures tickets_over_legs { TicketsOverLegs }
{}

/// At each moment, also where the run was stopped, the words show a tree of strands, with one leaf for each
/// place that has a strand. What is left of it comes to an end exactly where the depth-first run of the root
/// does, with the same outcome and the same words of the arrays, and that run counts so many capsules, forks
/// and block words more; the forks are those that were made, and those that nobody has pushed.
pub fn what_is_left_ends_so()
    ensures law { WhatIsLeftEndsSo }
    ensures over_legs { WhatIsLeftOverLegs }
{}

/// Where a place is to run the right branch of a block that was forked, this was taken, and the turn by which
/// a place first comes to run it is its take. So none is begun that is not counted.
pub fn runners_are_counted()
    ensures law { RunnersAreCounted }
    ensures begins { BeginnersAreCounted }
    ensures over_legs { RunnersAreCountedOverLegs }
{}

/// Where a processor would seek work next, the place that it carries has no strand: so who parks or leaves
/// strands nothing.
pub fn seekers_are_idle()
    ensures law { SeekersAreIdle }
    ensures over_legs { SeekersAreIdleOverLegs }
{}
