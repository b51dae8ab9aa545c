//! Reads listings with exchanges.
ghost use Rattle.std.specs.Prelude.{◌≡◌, ◌≤◌, length, IfOk, IfErr};
ghost use Rattle.ppm_listing.specs.Correct.{NumbersFit};
ghost use Rattle.ppm_racy.specs.Code.{plain_code};
ghost use Rattle.ppm_racy_listing.specs.Correct.{IsRacyRefusal};
ghost use Rattle.ppm_racy_listing.specs.Listing.{racy_listing_of};
ghost use Rattle.ppm_racy_listing.specs.Plain.{earlier_of, first_wrong as first_of};

use crate::exchanges::with_exchanges;
use crate::plain::plain_text;
use ppm_listing_reader::{ListingError, read_listing};
use ppm_racy::RacyCode;
use std::alloc::Global;

/// The first line whose old register is none, from 1; a line past 2^32 - 1 stands as that one.
fn first_wrong(olds: &[Option<u64>]) -> Option<u32>
    ensures { result ≡ first_of 1 olds.now }
{
    let mut line: u32 = 1;
    let mut left = olds;
    while let [old, rest @ ..] = left {
        if let Some(number) = old {
            if *number >= 64 {
                return Some(line);
            }
        }
        line = line.saturating_add(1);
        left = rest;
    }
    None
}

/// The first of the fault of the text with puts, and of an old register that is out of range at a
/// line.
fn earlier(wrong: Option<u32>, error: ListingError) -> ListingError
    ensures { result ≡ earlier_of wrong error }
{
    match wrong {
        None => error,
        Some(line) => {
            if error.number() == 0 {
                return error;
            }
            if line < error.line() || line == error.line() && 2 < error.number() {
                ListingError::OutOfRange(line)
            } else {
                error
            }
        }
    }
}

/// The code of a listing with exchanges. `Err` with the first fault of a text that is none, or
/// where memory is refused.
pub fn read_racy_listing(alloc: Global, text: &[u8]) -> Result<RacyCode, ListingError>
    ensures ok { IfOk result (λ code. text.now ≡ racy_listing_of code) }
    ensures fits { IfOk result (λ code. NumbersFit (plain_code code)) }
    ensures err { IfErr result (IsRacyRefusal text.now) }
{
    let plain = plain_text(alloc, text)?;
    let wrong = first_wrong(&plain.olds);
    match read_listing(alloc, &plain.text) {
        Ok(code) => match wrong {
            Some(line) => Err(ListingError::OutOfRange(line)),
            None => Ok(with_exchanges(alloc, &code, &plain.olds)?),
        },
        Err(error) => Err(earlier(wrong, error)),
    }
}
