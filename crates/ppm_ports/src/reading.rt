//! A whole input.
ghost use Rattle.std.specs.Prelude.{◌≤◌, IfOk};
ghost use Rattle.ppm_ports.specs.Whole.{CountsFaults, ReadsFront, ReadsTo};

use crate::read_error::ReadError;
use crate::source::Source;
use std::alloc::Global;

/// The most bytes of one read.
const PIECE: usize = 4096;

/// Reads to the end, or `limit` bytes and one: then there are too many. `Failed` comes where the
/// source's count of faults rose, and only there. At `Err` what was read is gone.
pub fn read_whole<S: Source>(
    alloc: Global,
    source: &mut S,
    limit: usize,
) -> Result<Vec<u8>, ReadError>
    ensures bytes { IfOk result (λ text.
        ReadsTo limit (S.left source.old) (S.left source.new) text.items) }
    ensures front { ReadsFront limit (S.left source.old) (S.left source.new) }
    ensures cause { CountsFaults (S.fault_count source.old) (S.fault_count source.new) result }
    ensures later { S.fault_count source.old ≤ S.fault_count source.new }
{
    let mut text = Vec::new(alloc);
    let mut buf = [0u8; PIECE];
    while text.len() <= limit {
        let room = (limit - text.len()).min(PIECE - 1) + 1;
        let count = source.read(&mut buf[..room])?;
        if count == 0 {
            break;
        }
        text.extend_from_slice(&buf[..count])?;
    }
    Ok(text)
}
