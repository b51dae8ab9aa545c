//! A whole output.
ghost use Rattle.std.specs.Prelude.{◌≡◌, ◌<◌, ◌≤◌, OnOk, OnErr, length};
ghost use Rattle.std.specs.Io.KnownBytes.{Appends};
ghost use Rattle.ppm_ports.specs.Causes.{Rose};
ghost use Rattle.ppm_ports.specs.Whole.{WritesFront};

use crate::failed::Failed;
use crate::sink::Sink;

/// Writes all of the bytes, or their front where the sink failed. No byte, no fault.
pub fn write_whole<K: Sink>(sink: &mut K, bytes: &[u8]) -> Result<(), Failed>
    ensures ok { OnOk result (Appends (K.written sink.old) (K.written sink.new) bytes.now) }
    ensures front { WritesFront (K.written sink.old) (K.written sink.new) bytes.now }
    ensures given { OnErr result (0 < length bytes.now) }
    ensures cause { OnErr result (Rose (K.fault_count sink.old) (K.fault_count sink.new)) }
    ensures quiet { OnOk result (K.fault_count sink.new ≡ K.fault_count sink.old) }
    ensures later { K.fault_count sink.old ≤ K.fault_count sink.new }
{
    let mut at = 0;
    while at < bytes.len() {
        at += sink.write(&bytes[at..])?;
    }
    Ok(())
}
