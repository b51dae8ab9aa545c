//! Registers that hold 0 wherever a capsule reads them.
ghost use Rattle.std.specs.Prelude.{◌≡◌, replicate, take};

/// Where a capsule reads no register past these many, they alone are set to 0.
const NARROW: u8 = 8;

/// Sets to 0 the registers that a capsule of this width reads, and maybe more: the first eight where
/// the width is no more than eight, else all 64.
#[inline(always)]
pub fn set_to_0(registers: &mut [u64; 64], width: u8)
    ensures { take width registers.new ≡ take width (replicate 64 0) }
{
    if width > NARROW {
        *registers = [0; 64];
        return;
    }
    for index in 0..usize::from(NARROW) {
        registers[index] = 0;
    }
}
