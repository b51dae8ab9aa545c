//! What is true of every text, shown by a call that does nothing.
ghost use Rattle.ppm_listing_reader.specs.Correct.{FaultsTellListings};

/// A text has a fault exactly where it is the listing of no code; it is that of one code at most,
/// and has one first fault at most.
pub fn faults_tell_listings()
    ensures law { FaultsTellListings }
{}
