//! Registers.
ghost use Rattle.std.specs.Prelude.{◌≡◌, ◌<◌, ◌↔◌, IsNone, ◌≤◌, IfSome};

/// The number of a register, from 0 to 63.
#[derive(Clone, Copy, Debug, PartialEq, Eq)]
pub struct Register {
    pub index: u8,
    ghost in_range: { index < 64 },
}

impl Register {
    /// The register with a number; `None` exactly where there is none.
    pub fn new(index: u8) -> Option<Register>
        ensures value { IfSome result (λ register. register.index ≡ index) }
        ensures exactly { IsNone result ↔ (64 ≤ index) }
    {
        if index < 64 {
            Some(Register { index })
        } else {
            None
        }
    }
}
