//! What is true of every text, shown by a call that does nothing.
ghost use Rattle.ppm_racy_case.specs.Correct.{RacyFaultsTellCases};

use ppm_racy_listing::racy_faults_tell_listings;

/// A text has a fault exactly where it is of no case; it is of one case at most, and has one fault
/// at most.
pub fn racy_faults_tell_cases()
    ensures law { RacyFaultsTellCases }
{
    // The law rests on this one; the call does nothing.
    racy_faults_tell_listings();
}
