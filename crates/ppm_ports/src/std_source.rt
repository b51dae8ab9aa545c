//! Any reader as a source.
ghost use Rattle.std.specs.Prelude.{◌≡◌};
ghost use Rattle.std.specs.Io.{ReadsAtMost};
ghost use Rattle.std.specs.Io.KnownBytes.{ReadConsumes};
ghost use Rattle.ppm_ports.specs.Causes.{Counts, HasCause};

use crate::failed::Failed;
use crate::source::Source;
use std::io::Read;

/// A reader whose errors are counted. It shows what is left where the reader does.
#[derive(Drop)]
pub struct StdSource<R: Read + Drop> {
    reader: R,
    faults: u64,
}

impl<R: Read + Drop> StdSource<R> {
    /// The source of a reader, with no fault yet.
    pub fn new(reader: R) -> Self
        ensures left { ⟦<StdSource<R> as Source>⟧.left result ≡ R.remaining reader }
        ensures faults { ⟦<StdSource<R> as Source>⟧.fault_count result ≡ 0 }
    {
        StdSource { reader, faults: 0 }
    }
}

impl<R: Read + Drop> Source for StdSource<R> {
    ghost left = { λ s. R.remaining s.reader };

    ghost fault_count = { λ s. s.faults };

    fn faults(&self) -> u64 {
        self.faults
    }

    fn read(&mut self, buf: &mut [u8]) -> Result<usize, Failed>
        ensures bound { ReadsAtMost result buf.new }
        ensures bytes { let left = ⟦<StdSource<R> as Source>⟧.left in
            ReadConsumes (left self.old) (left self.new) result buf.new }
        ensures cause { let faults = ⟦<StdSource<R> as Source>⟧.fault_count in
            HasCause (faults self.old) (faults self.new) result }
        ensures counted { let faults = ⟦<StdSource<R> as Source>⟧.fault_count in
            Counts (faults self.old) (faults self.new) result }
    {
        match self.reader.read(buf) {
            Ok(count) => Ok(count),
            Err(_) => {
                self.faults = self.faults.saturating_add(1);
                Err(Failed)
            }
        }
    }
}
