//! Any writer as a sink.
ghost use Rattle.std.specs.Prelude.{◌≡◌, ◌<◌, IfOk, length};
ghost use Rattle.std.specs.Io.{WritesAtMost};
ghost use Rattle.std.specs.Io.KnownBytes.{WriteAppends};
ghost use Rattle.ppm_ports.specs.Causes.{Counts, HasCause};

use crate::failed::Failed;
use crate::sink::Sink;
use std::io::Write;

/// A writer whose errors are counted, and the calls in which it took none of the bytes.
/// It shows what was written where the writer does.
#[derive(Drop)]
pub struct StdSink<W: Write + Drop> {
    writer: W,
    faults: u64,
}

impl<W: Write + Drop> StdSink<W> {
    /// The sink of a writer, with no fault yet.
    pub fn new(writer: W) -> Self
        ensures written { ⟦<StdSink<W> as Sink>⟧.written result ≡ W.contents writer }
        ensures faults { ⟦<StdSink<W> as Sink>⟧.fault_count result ≡ 0 }
    {
        StdSink { writer, faults: 0 }
    }
}

impl<W: Write + Drop> Sink for StdSink<W> {
    ghost written = { λ s. W.contents s.writer };

    ghost fault_count = { λ s. s.faults };

    fn faults(&self) -> u64 {
        self.faults
    }

    fn write(&mut self, bytes: &[u8]) -> Result<usize, Failed>
        ensures bound { WritesAtMost result bytes.now }
        ensures progress { 0 < length bytes.now → IfOk result (λ n. 0 < n) }
        ensures bytes { let written = ⟦<StdSink<W> as Sink>⟧.written in
            WriteAppends (written self.old) (written self.new) result bytes.now }
        ensures cause { let faults = ⟦<StdSink<W> as Sink>⟧.fault_count in
            HasCause (faults self.old) (faults self.new) result }
        ensures counted { let faults = ⟦<StdSink<W> as Sink>⟧.fault_count in
            Counts (faults self.old) (faults self.new) result }
    {
        match self.writer.write(bytes) {
            Ok(count) if count > 0 || bytes.is_empty() => Ok(count),
            _ => {
                self.faults = self.faults.saturating_add(1);
                Err(Failed)
            }
        }
    }
}
