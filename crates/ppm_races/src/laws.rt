//! What verdicts tell of each code with its input, shown by calls that do nothing.
ghost use Rattle.ppm_races.specs.Verdicts.{VerdictsAreOne, VerdictsAreThere};

/// A code and an input have one verdict within a limit of capsules.
pub fn verdicts_are_one()
    ensures { VerdictsAreOne }
{}

/// Each code has a verdict with each input within each limit of capsules.
pub fn verdicts_are_there()
    ensures { VerdictsAreThere }
{}
