//! The arithmetic of the language on two signed numbers.
ghost use Rattle.std.specs.Prelude.{◌≡◌, ◌+ℤ◌, ◌-ℤ◌, ◌*ℤ◌};
ghost use Rattle.ppm_code.specs.Acts.{kept, whole, quotient_of, remainder_of};

use crate::act::{Act, End};
use crate::register::Register;
use ppm_words::{Trap, to_word};

/// What was found goes into the register; Overflow where nothing was found.
fn in_range(line: u32, to: Register, found: Option<i64>) -> Act
    ensures { result ≡ kept line to found }
{
    match found {
        Some(value) => Act::Sets(to, to_word(value)),
        None => Act::Ends(End::Trap {
            trap: Trap::Overflow,
            line,
        }),
    }
}

/// The sum goes into the register, or Overflow.
pub(crate) fn sum(line: u32, to: Register, left: i64, right: i64) -> Act
    ensures { result ≡ whole line to (left +ℤ right) }
{
    in_range(line, to, left.checked_add(right))
}

/// The difference, or Overflow.
pub(crate) fn difference(line: u32, to: Register, left: i64, right: i64) -> Act
    ensures { result ≡ whole line to (left -ℤ right) }
{
    in_range(line, to, left.checked_sub(right))
}

/// The product, or Overflow.
pub(crate) fn product(line: u32, to: Register, left: i64, right: i64) -> Act
    ensures { result ≡ whole line to (left *ℤ right) }
{
    in_range(line, to, left.checked_mul(right))
}

/// The quotient, cut towards 0; DivZero, or Overflow.
pub(crate) fn quotient(line: u32, to: Register, left: i64, right: i64) -> Act
    ensures { result ≡ quotient_of line to left right }
{
    if right == 0 {
        Act::Ends(End::Trap {
            trap: Trap::DivZero,
            line,
        })
    } else {
        in_range(line, to, left.checked_div(right))
    }
}

/// The remainder, with the sign of the dividend; DivZero, or Overflow where the quotient is too
/// large.
pub(crate) fn remainder(line: u32, to: Register, left: i64, right: i64) -> Act
    ensures { result ≡ remainder_of line to left right }
{
    if right == 0 {
        Act::Ends(End::Trap {
            trap: Trap::DivZero,
            line,
        })
    } else {
        in_range(line, to, left.checked_rem(right))
    }
}
