//! The registers of a RAM.
ghost use Rattle.std.specs.Prelude.{◌<◌};

/// The number of a register, from 0 to 7.
#[derive(Clone, Copy, Debug, PartialEq, Eq)]
pub struct Register {
    pub index: u8,
    ghost in_range: { index < 8 },
}
