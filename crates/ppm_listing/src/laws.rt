//! What is true of every listing, shown by a call that does nothing.
ghost use Rattle.ppm_listing.specs.Correct.{ListingsTellCodes};

/// A listing tells its code: two codes with one listing are one.
pub fn listings_tell_codes()
    ensures law { ListingsTellCodes }
{}
