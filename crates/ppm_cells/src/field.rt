//! Fields of bits in a word.
ghost use Rattle.std.specs.Prelude.{◌≡◌, ◌+◌, ◌-◌, ◌*◌, ◌^◌, ◌<◌};
ghost use Rattle.ppm_cells.specs.Fields.{bits};

/// The number in `width` bits of a word, from bit `from` on. Bit 0 is the lowest.
pub(crate) fn bits_of(word: u64, from: u32, width: u32) -> u64
    requires from { from < 64 }
    requires width { width < 64 }
    ensures value { result ≡ bits from width word }
    ensures bound { result < 2 ^ width }
{
    (word >> from) & ((1 << width) - 1)
}

/// The word with `low` in its lowest `width` bits, and `high` above them.
pub(crate) fn joined(high: u64, width: u32, low: u64) -> u64
    requires width { width < 64 }
    requires high { high < 2 ^ (64 - width) }
    requires low { low < 2 ^ width }
    ensures { result ≡ high * 2 ^ width + low }
{
    high << width | low
}
