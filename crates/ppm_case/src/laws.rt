//! What is true of every text, shown by a call that does nothing.
ghost use Rattle.ppm_case.specs.Correct.{FaultsTellCases, WrittenCasesAreRead};

use ppm_listing_reader::faults_tell_listings;

/// A text has a fault exactly where it is of no case; it is of one case at most, and has one fault
/// at most. What stands after more bytes than a case may have changes none.
pub fn faults_tell_cases()
    ensures law { FaultsTellCases }
{
    // The law rests on this one; the call does nothing.
    faults_tell_listings();
}

/// What is written of a case is of it, if each array has a name of its own, which is no keyword. No
/// such text is too long.
pub fn written_cases_are_read()
    ensures law { WrittenCasesAreRead }
{}
