//! What holds of a code whose paths are filled, shown by calls that do nothing.
ghost use Rattle.ppm_filled.specs.Alone.{RacingCodeIsOfTheCode};
ghost use Rattle.ppm_filled.specs.Correct.{FaultsOfFilledPathsAreInvisible, FilledPathsAreFilled};
ghost use Rattle.ppm_filled.specs.Sample.{RacyReadIsFilled};

/// Where no path has a conflict and each is filled, the capsules are ordered and filled as the law
/// on invisible faults asks.
pub fn filled_paths_are_filled()
    ensures { FilledPathsAreFilled }
{}

/// The faults of such a code are invisible, whatever words its root begins with, if what its
/// capsules do stands in each run without faults.
pub fn faults_of_filled_paths_are_invisible()
    ensures { FaultsOfFilledPathsAreInvisible }
{}

/// A capsule that reads an array word, which others may change meanwhile, and keeps it in a slot,
/// has no conflict and is filled.
pub fn a_racy_read_is_filled()
    ensures { RacyReadIsFilled }
{}

/// Strands that may race are those of the code: a capsule alone comes to what the capsule of the
/// code comes to, an end opens what it opens there, and a frame goes on after a callee or two
/// branches as it does there.
pub fn racing_code_is_of_the_code()
    ensures { RacingCodeIsOfTheCode }
{}
