//! The source that `self` runs.
ghost use Rattle.std.specs.Prelude.{◌≡◌, ◌≤◌, ◌<◌, ◌^◌, ◌+◌, ◌++◌, IfOk, OnOk};
ghost use Rattle.std.specs.Int.{IsInRange};
ghost use Rattle.ppm_plan.specs.Sources.{source_of, value_at as element, values_from};

use ppm_pieces::push_number;
use ppm_words::NoMemory;
use std::alloc::Global;

/// The value of an element.
fn value_at(seed: u32, index: u32) -> u64
    ensures { result ≡ element seed index }
{
    (u64::from(seed) + 31 * u64::from(index)) % 1000
}

/// Appends so many values from an element on, each after a comma.
fn push_values(text: &mut Vec<u8>, seed: u32, first: u32, count: u32) -> Result<(), NoMemory>
    requires { first + count < 2 ^ 32 }
    ensures { OnOk result (text.new.items ≡ text.old.items ++ values_from seed first count) }
{
    let mut index = first;
    let mut left = count;
    while left > 0 {
        text.extend_from_slice(", ".as_bytes())?;
        push_number(text, value_at(seed, index))?;
        index += 1;
        left -= 1;
    }
    Ok(())
}

/// The procedures that sum an array by halves.
const PROCEDURES: &str =
    "proc sum(mut a) { if len a > 1 { split a at len a / 2 into l, r { fork sum(l) and sum(r); l[0] = l[0] + r[0]; } } }\nproc main(mut a) { call sum(a); }";

/// A source that sums an array of `size` values, from 1 to 4,096, by halves: element i is
/// `(seed + 31 i) mod 1000`.
pub fn make_source(alloc: Global, size: u32, seed: u32) -> Result<Vec<u8>, NoMemory>
    requires { IsInRange 1 4096 size }
    ensures { IfOk result (λ text. text.items ≡ source_of size seed) }
{
    let mut text = Vec::new(alloc);
    text.extend_from_slice("array a[".as_bytes())?;
    push_number(&mut text, u64::from(size))?;
    text.extend_from_slice("];\ninput a = ".as_bytes())?;
    push_number(&mut text, value_at(seed, 0))?;
    push_values(&mut text, seed, 1, size - 1)?;
    text.extend_from_slice(";\n".as_bytes())?;
    text.extend_from_slice(PROCEDURES.as_bytes())?;
    Ok(text)
}
