//! What `self` tells of the run of its example, and the line that tells it.
ghost use Rattle.std.specs.Prelude.{◌≡◌, IfOk};
ghost use Rattle.std.specs.Fmt.{signed_decimal};
ghost use Rattle.std.specs.String.{string_bytes};
ghost use Rattle.ppm_answers.specs.Texts.{sums_text};

use std::alloc::{AllocError, Global};

/// What `self` tells of the run of its example, which sums an array by halves.
#[derive(Clone, Copy, Debug, PartialEq, Eq)]
pub struct Sums {
    /// How many values the array has.
    pub size: u32,
    /// How many forks its program makes.
    pub forks: u64,
    /// The first value of the array at the end: the sum.
    pub sum: i64,
    /// The last one.
    pub last: i64,
}

/// The line of the sums.
pub(crate) fn sums_text_of(alloc: Global, sums: Sums) -> Result<Vec<u8>, AllocError>
    ensures { IfOk result (λ text. text.items ≡ sums_text sums) }
{
    let Sums { size, forks, .. } = sums;
    let sum = digits_of(alloc, &sums.sum)?;
    let last = digits_of(alloc, &sums.last)?;
    let text = format!(in alloc; "size {size} forks {forks} sum {sum} last {last}\n")?;
    Ok(text.into_bytes())
}

/// The digits of a value, after a minus where it is negative.
fn digits_of(alloc: Global, value: &i64) -> Result<String, AllocError>
    ensures { IfOk result (λ text. string_bytes text ≡ signed_decimal value.now) }
{
    value.to_string(alloc)
}
