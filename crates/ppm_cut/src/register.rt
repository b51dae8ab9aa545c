//! Registers by their numbers.
ghost use Rattle.std.specs.Prelude.{◌≡◌, ◌≤◌, suc};
ghost use Rattle.ppm_cut_code.specs.Layout.{register};

use ppm_code::Register;

/// The register with a number, or the last one.
pub fn register(number: u32) -> Register
    ensures { result ≡ register number }
{
    if number < 64 {
        Register {
            index: number as u8,
        }
    } else {
        Register { index: 63 }
    }
}

/// The register after that with a number, or the last one.
pub fn register_after(number: u32) -> Register
    requires { number ≤ 4294967294 }
    ensures { result ≡ register (suc number) }
{
    register(number + 1)
}
