//! The first of the faults that were found.
ghost use Rattle.std.specs.Prelude.{◌≡◌};
ghost use Rattle.ppm_regions.specs.Deciding.{comes_before, earlier_of};

use crate::region_error::RegionError;

/// Whether the first one has the lesser number, or the same number and an earlier line.
fn comes_before(a: RegionError, b: RegionError) -> bool
    ensures { result ≡ comes_before a b }
{
    a.number() < b.number() || (a.number() == b.number() && a.line() < b.line())
}

/// The first of two faults, each of which may be missing.
pub fn earlier(a: Option<RegionError>, b: Option<RegionError>) -> Option<RegionError>
    ensures { result ≡ earlier_of a b }
{
    match (a, b) {
        (Some(a), Some(b)) if comes_before(b, a) => Some(b),
        (Some(a), _) => Some(a),
        (None, b) => b,
    }
}
