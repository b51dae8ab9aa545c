//! The words of a line that are numbers: `None` is of a word that has not its form, and
//! `Some(None)` of a number out of its range.
ghost use Rattle.std.specs.Prelude.{◌≡◌};
ghost use Rattle.ppm_ram.specs.Numbers.{in_range_both, pair_of as pair, register_with};
ghost use Rattle.ppm_ram.specs.Numbers.{register_in as register, target_in as target};
ghost use Rattle.ppm_ram.specs.Numbers.{from_zero as zero_on, below_zero as zero_below};
ghost use Rattle.ppm_ram.specs.Numbers.{negative_in as negative, natural_in as natural};
ghost use Rattle.ppm_ram.specs.Numbers.{value_in as value_said};

use crate::register::Register;
use ppm_pieces::{is_numeral, value};

/// Two numbers, if both are in range.
fn in_range_both<A: Copy, B: Copy>(a: Option<A>, b: Option<B>) -> Option<(A, B)>
    ensures { result ≡ in_range_both a b }
{
    match a {
        None => None,
        Some(a) => match b {
            None => None,
            Some(b) => Some((a, b)),
        },
    }
}

/// What two words say, if both have their forms.
pub(crate) fn pair_of<A: Copy, B: Copy>(
    a: Option<Option<A>>,
    b: Option<Option<B>>,
) -> Option<Option<(A, B)>>
    ensures { result ≡ pair a b }
{
    match a {
        None => None,
        Some(a) => match b {
            None => None,
            Some(b) => Some(in_range_both(a, b)),
        },
    }
}

/// The register with a number, if there is one.
fn register_with(number: u64) -> Option<Register>
    ensures { result ≡ register_with number }
{
    if number < 8 {
        Some(Register {
            index: number as u8,
        })
    } else {
        None
    }
}

/// The register that a word names.
pub(crate) fn register_in(word: &[u8]) -> Option<Option<Register>>
    ensures { result ≡ register word.now }
{
    if is_numeral(word) {
        Some(register_with(value(word)))
    } else {
        None
    }
}

/// The instruction that a word names; one past 2^32 - 1 stands as that.
pub(crate) fn target_in(word: &[u8]) -> Option<Option<u32>>
    ensures { result ≡ target word.now }
{
    if is_numeral(word) {
        Some(Some(u32::try_from(value(word)).unwrap_or(u32::MAX)))
    } else {
        None
    }
}

/// A number from 0 on, if it is a value.
fn from_zero(number: u64) -> Option<i64>
    ensures { result ≡ zero_on number }
{
    if number < 1 << 63 {
        Some(number as i64)
    } else {
        None
    }
}

/// The negative of a number above 0, if it is a value.
fn below_zero(number: u64) -> Option<i64>
    ensures { result ≡ zero_below number }
{
    if number <= 1 << 63 {
        Some(-1 - (number.saturating_sub(1) as i64))
    } else {
        None
    }
}

/// The number of digits after a minus: not 0.
fn negative_in(digits: &[u8]) -> Option<Option<i64>>
    ensures { result ≡ negative digits.now }
{
    if is_numeral(digits) && !(value(digits) == 0) {
        Some(below_zero(value(digits)))
    } else {
        None
    }
}

/// The number of digits.
fn natural_in(digits: &[u8]) -> Option<Option<i64>>
    ensures { result ≡ natural digits.now }
{
    if is_numeral(digits) {
        Some(from_zero(value(digits)))
    } else {
        None
    }
}

/// The value that a word spells.
pub(crate) fn value_in(word: &[u8]) -> Option<Option<i64>>
    ensures { result ≡ value_said word.now }
{
    match word {
        [] => None,
        [first, rest @ ..] => {
            if *first == b'-' {
                negative_in(rest)
            } else {
                natural_in(word)
            }
        }
    }
}
