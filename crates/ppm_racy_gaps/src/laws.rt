//! What holds of a code with exchanges that has no flaw, shown by calls that do nothing.
ghost use Rattle.ppm_racy_gaps.specs.Correct.{RacyCodesWithoutFlawsAreRestartable};
ghost use Rattle.ppm_racy_gaps.specs.Correct.{RacyFlawsTellCodes};

use ppm_gaps::flaws_tell_codes;
use ppm_racy::faults_of_racy_paths_are_invisible;

/// Where no capsule of a code has a conflict, and none a gap, each capsule is ordered and filled,
/// and the faults of its strands are invisible where what they do stands.
pub fn racy_codes_without_flaws_are_restartable()
    ensures { RacyCodesWithoutFlawsAreRestartable }
{
    faults_of_racy_paths_are_invisible();
}

/// A code has one first flaw, or it has none.
pub fn racy_flaws_tell_codes()
    ensures { RacyFlawsTellCodes }
{
    flaws_tell_codes();
}
