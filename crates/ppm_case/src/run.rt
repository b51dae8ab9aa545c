//! What a word of an array's values says.
ghost use Rattle.std.specs.Prelude.{◌≡◌};
ghost use Rattle.std.specs.Option.{option_map};
ghost use Rattle.ppm_case.specs.Spelling.{from_zero as zero_on, below_zero as zero_below};
ghost use Rattle.ppm_case.specs.Spelling.{negative_in as negative, natural_in as natural};
ghost use Rattle.ppm_case.specs.Spelling.{number_in as number, run_of, run_in as run};

use ppm_pieces::{is_numeral, split_once, value};

/// A number, if it has 64 bits, and how often it stands there; one past 2^64 - 1 times stands as
/// that.
#[derive(Clone, Copy, Debug, PartialEq, Eq)]
pub struct Run {
    pub number: Option<i64>,
    pub times: u64,
}

/// A number from 0 on, if it has 64 bits.
fn from_zero(number: u64) -> Option<i64>
    ensures { result ≡ zero_on number }
{
    if number < 1 << 63 {
        Some(number as i64)
    } else {
        None
    }
}

/// The negative of a number above 0, if it has 64 bits.
fn below_zero(number: u64) -> Option<i64>
    ensures { result ≡ zero_below number }
{
    if number <= 1 << 63 {
        Some(-1 - (number.saturating_sub(1) as i64))
    } else {
        None
    }
}

/// The number of digits after a minus.
fn negative_in(digits: &[u8]) -> Option<Option<i64>>
    ensures { result ≡ negative digits.now }
{
    if is_numeral(digits) && !(value(digits) == 0) {
        Some(below_zero(value(digits)))
    } else {
        None
    }
}

/// The number of digits.
fn natural_in(digits: &[u8]) -> Option<Option<i64>>
    ensures { result ≡ natural digits.now }
{
    if is_numeral(digits) {
        Some(from_zero(value(digits)))
    } else {
        None
    }
}

/// The number that a word spells, if it spells one; `Some(None)` where that has more than 64 bits.
fn number_in(word: &[u8]) -> Option<Option<i64>>
    ensures { result ≡ number word.now }
{
    match word {
        [] => None,
        [first, rest @ ..] => {
            if *first == b'-' {
                negative_in(rest)
            } else {
                natural_in(word)
            }
        }
    }
}

/// A number so many times, if it is one.
fn repeated(number: Option<Option<i64>>, times: u64) -> Option<Run>
    ensures { result ≡ option_map (run_of times) number }
{
    match number {
        Some(number) => Some(Run { number, times }),
        None => None,
    }
}

/// What a word of values says: `V`, or `V*N`.
pub fn run_in(word: &[u8]) -> Option<Run>
    ensures { result ≡ run word.now }
{
    match split_once(word, b'*') {
        Some((number, times)) => if is_numeral(times) {
            repeated(number_in(number), value(times))
        } else {
            None
        },
        None => repeated(number_in(word), 1),
    }
}
