//! Two branches that both clear an array word: strands that race, and whose faults are invisible.

ghost use Rattle.ppm_test_laws.specs.Clears.{ClearingMeetsBoth, FaultsOfClearingAreInvisible};

use ppm_filled::faults_of_filled_paths_are_invisible;

/// The paths of this code are filled, and what it does stands: each of its puts is of 0, so a word
/// that was changed is 0 from then on.
pub fn clearing_meets_both()
    ensures { ClearingMeetsBoth }
{}

/// The faults of this code are invisible, since its paths are filled, though its branches race.
pub fn faults_of_clearing_are_invisible()
    ensures { FaultsOfClearingAreInvisible }
{
    clearing_meets_both();
    faults_of_filled_paths_are_invisible();
}
