//! What holds of a code without flaws, shown by calls that do nothing.
ghost use Rattle.ppm_gaps.specs.Correct.{CodesWithoutFlawsAreRestartable, FlawsTellCodes};

use ppm_filled::{faults_of_filled_paths_are_invisible, filled_paths_are_filled};

/// Where no capsule of a code has a conflict, and none a gap, each capsule is ordered and filled,
/// and the faults of its strands are invisible where what they do stands.
pub fn codes_without_flaws_are_restartable()
    ensures { CodesWithoutFlawsAreRestartable }
{
    filled_paths_are_filled();
    faults_of_filled_paths_are_invisible();
}

/// A code has one first flaw, or the paths of all its capsules are without conflict and filled.
pub fn flaws_tell_codes()
    ensures { FlawsTellCodes }
{}
