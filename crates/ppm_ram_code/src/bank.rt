//! The copies of the registers.
ghost use Rattle.std.specs.Prelude.{◌≡◌, ◌≤◌, ◌<◌, ◌^◌};
ghost use Rattle.ppm_ram_code.specs.Code.{capsule_at as capsule, other as other_one, slot_of as slot};

/// A copy of the registers.
#[derive(Clone, Copy, Debug, PartialEq, Eq)]
pub enum Bank {
    First,
    Second,
}

impl Bank {
    /// The other copy.
    pub(crate) fn other(self) -> Bank
        ensures { result ≡ other_one self }
    {
        match self {
            Bank::First => Bank::Second,
            Bank::Second => Bank::First,
        }
    }

    /// The slot of a register in the copy.
    pub(crate) fn slot_of(self, register: u8) -> u32
        requires { register < 8 }
        ensures { result ≡ slot self register }
    {
        match self {
            Bank::First => 1 + u32::from(register),
            Bank::Second => 9 + u32::from(register),
        }
    }

    /// The capsule of an instruction that reads the copy.
    pub(crate) fn capsule_at(self, number: u32) -> u32
        requires { number < 2 ^ 30 }
        ensures { result ≡ capsule number self }
    {
        match self {
            Bank::First => 2 * number,
            Bank::Second => 2 * number + 1,
        }
    }
}
