//! What is true of every holder, shown by calls that do nothing.
ghost use Rattle.std.specs.Prelude.{ℕ};
ghost use Rattle.ppm_cells.specs.HoldLaws.{BidsGoOn, NeverReturns, OthersBidForThemselves};

/// A bid goes on in the order of its holder, and so does one bid after the other.
pub fn bids_go_on()
    ensures law { BidsGoOn }
{}

/// What comes of a holder has a greater tag or is the same, and no holder comes back: so a
/// compare-and-modify that meets the holder that was seen is the takeover that was meant.
pub fn holders_never_return()
    ensures law { NeverReturns }
{}

/// What others do to a holder word does not name a processor that makes no bid: so who finds its
/// own bid has taken the place.
pub fn others_bid_for_themselves()
    ensures law { (own : ℕ) → OthersBidForThemselves own }
{}
