//! What is true of listings with exchanges, shown by calls that do nothing.
ghost use Rattle.ppm_racy_listing.specs.Correct.{PlainListingsStay, RacyFaultsTellListings};

/// A code without exchanges has the listing that `ppm_listing` gives it.
pub fn plain_listings_stay()
    ensures { PlainListingsStay }
{}

/// A text has a fault exactly where it is the listing of no code; it is that of one code at most,
/// and has one first fault at most.
pub fn racy_faults_tell_listings()
    ensures { RacyFaultsTellListings }
{
    ppm_listing_reader::faults_tell_listings();
}
