//! Rows of equal values.
ghost use Rattle.std.specs.Prelude.{◌≡◌, ◌∷◌, [], ◌+◌, ◌<◌, ◌≤◌, ◌^◌, ◌&&◌, pos, length, MatchOption};
ghost use Rattle.std.specs.List.{prefix_len};
ghost use Rattle.ppm_pieces.specs.Numbers.{is_empty as is_nil};
ghost use Rattle.ppm_case.specs.Text.{same_value, row, rows_of};

use ppm_pieces::behind;

/// A value, and how often it stands in a row: once at least.
#[derive(Clone, Copy, Debug, PartialEq, Eq)]
pub struct Row {
    pub number: i64,
    pub times: u64,
}

/// Whether two values are the same.
fn is_same(a: i64, b: i64) -> bool
    ensures { result ≡ same_value a b }
{
    a == b
}

/// How many values are the same as this one, before another comes.
fn front_len(values: &[i64], value: i64) -> usize
    ensures len { result ≡ prefix_len (λ v. same_value v value) values.now }
    ensures within { result ≤ length values.now }
{
    let mut count: usize = 0;
    let mut left = values;
    while let [first, rest @ ..] = left {
        if !is_same(*first, value) {
            return count;
        }
        count += 1;
        left = rest;
    }
    count
}

/// Whether a value is 0, and none follow.
fn is_last_zero(value: i64, left: &[i64]) -> bool
    ensures { result ≡ (same_value value (pos 0) && is_nil left.now) }
{
    is_same(value, 0) && left.is_empty()
}

/// A value, and so many more of it.
fn row_of(number: i64, more: usize) -> Row
    requires { 1 + more < 2 ^ 64 }
    ensures { result ≡ row number (1 + more) }
{
    Row {
        number,
        times: 1 + more as u64,
    }
}

/// The row of a value in front of others, and the values after it; `None` where all are zeros.
fn front_row(value: i64, rest: &[i64]) -> Option<(Row, &[i64])>
    ensures rows { MatchOption result
        (rows_of (value ∷ rest.now) ≡ [])
        (λ p. rows_of (value ∷ rest.now) ≡ p.0 ∷ rows_of p.1.now) }
    ensures shorter { MatchOption result (Unit {0}) (λ p. length p.1.now ≤ length rest.now) }
{
    let more = front_len(rest, value);
    let left = behind(rest, more);
    if is_last_zero(value, left) {
        return None;
    }
    Some((row_of(value, more), left))
}

/// The first of the longest rows of values, and the values after it; `None` where there are none
/// but zeros.
pub(crate) fn first_row(values: &[i64]) -> Option<(Row, &[i64])>
    ensures rows { MatchOption result
        (rows_of values.now ≡ [])
        (λ p. rows_of values.now ≡ p.0 ∷ rows_of p.1.now) }
    ensures shorter { MatchOption result (Unit {0}) (λ p. length p.1.now < length values.now) }
{
    match values {
        [] => None,
        [value, rest @ ..] => front_row(*value, rest),
    }
}
