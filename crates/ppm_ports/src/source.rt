//! Where bytes come from.
ghost use Rattle.std.specs.Prelude.{◌≡◌, List, Option, ℕ};
ghost use Rattle.std.specs.Io.{ReadsAtMost};
ghost use Rattle.std.specs.Io.KnownBytes.{ReadConsumes};
ghost use Rattle.ppm_ports.specs.Causes.{HasCause};

use crate::failed::Failed;

/// A source of bytes, which counts its faults.
pub trait Source {
    /// The bytes that are left, where the source shows them.
    ghost left: { Self → Option (List ℕ) };

    /// How often the source has failed. It stays at 2^64 - 1.
    ghost fault_count: { Self → ℕ };

    /// How often the source has failed. The count never falls, and stays at 2^64 - 1.
    fn faults(&self) -> u64
        ensures { result ≡ fault_count self.now };

    /// Moves the next bytes into the front of `buf`, and answers how many.
    /// `Ok(0)` at a buffer that is not empty is the end.
    /// `Failed` comes only where the count of faults rose in this call; then no byte was moved.
    fn read(&mut self, buf: &mut [u8]) -> Result<usize, Failed>
        ensures bound { ReadsAtMost result buf.new }
        ensures bytes { ReadConsumes (left self.old) (left self.new) result buf.new }
        ensures cause { HasCause (fault_count self.old) (fault_count self.new) result };
}
