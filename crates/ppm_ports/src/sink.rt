//! Where bytes go.
ghost use Rattle.std.specs.Prelude.{◌≡◌, ◌<◌, List, Option, ℕ, length, IfOk};
ghost use Rattle.std.specs.Io.{WritesAtMost};
ghost use Rattle.std.specs.Io.KnownBytes.{WriteAppends};
ghost use Rattle.ppm_ports.specs.Causes.{HasCause};

use crate::failed::Failed;

/// A sink of bytes, which counts its faults.
pub trait Sink {
    /// The bytes that were written, where the sink shows them.
    ghost written: { Self → Option (List ℕ) };

    /// How often the sink has failed. It stays at 2^64 - 1.
    ghost fault_count: { Self → ℕ };

    /// How often the sink has failed. The count never falls, and stays at 2^64 - 1.
    fn faults(&self) -> u64
        ensures { result ≡ fault_count self.now };

    /// Appends the first bytes of `bytes`, at least one where there is one, and answers how many.
    /// `Failed` comes only where the count of faults rose in this call; then no byte was appended.
    fn write(&mut self, bytes: &[u8]) -> Result<usize, Failed>
        ensures bound { WritesAtMost result bytes.now }
        ensures progress { 0 < length bytes.now → IfOk result (λ n. 0 < n) }
        ensures bytes { WriteAppends (written self.old) (written self.new) result bytes.now }
        ensures cause { HasCause (fault_count self.old) (fault_count self.new) result };
}
