//! Region words: the start in bits 32 to 63, the length in bits 0 to 31.
ghost use Rattle.std.specs.Prelude.{◌≡◌};
ghost use Rattle.ppm_code.specs.Acts.{element_of, cut_left_of, cut_right_of};

use crate::act::{Act, End};
use crate::register::Register;
use ppm_words::Trap;

/// The part of a region before a place, or Split.
pub(crate) fn cut_left(line: u32, to: Register, region: u64, at: u64) -> Act
    ensures { result ≡ cut_left_of line to region at }
{
    let start = region / (1 << 32);
    if at <= region % (1 << 32) {
        Act::Sets(to, start * (1 << 32) + at)
    } else {
        Act::Ends(End::Trap {
            trap: Trap::Split,
            line,
        })
    }
}

/// The part of a region from a place on, or Split.
pub(crate) fn cut_right(line: u32, to: Register, region: u64, at: u64) -> Act
    ensures { result ≡ cut_right_of line to region at }
{
    let start = region / (1 << 32);
    let length = region % (1 << 32);
    if at <= length && start + at < 1 << 32 {
        Act::Sets(to, (start + at) * (1 << 32) + (length - at))
    } else {
        Act::Ends(End::Trap {
            trap: Trap::Split,
            line,
        })
    }
}

/// The array word of an index of a region, where it is in both. A negative index is a large word.
pub(crate) fn element(region: u64, index: u64, array_words: u64) -> Option<u64>
    ensures { result ≡ element_of array_words region index }
{
    let length = region % (1 << 32);
    let start = region / (1 << 32);
    if index < length && start + index < array_words {
        Some(start + index)
    } else {
        None
    }
}
