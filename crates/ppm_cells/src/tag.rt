//! The tag of an entry, which rises at each change.
ghost use Rattle.std.specs.Prelude.{◌↔◌, IsTrue};
ghost use Rattle.ppm_cells.specs.DequeChange.{CanRise};

use crate::entry::Entry;

/// Whether the tag is below the last one, 2^34 - 1: what changes an entry asks for this.
pub fn entry_can_rise(seen: Entry) -> bool
    ensures { IsTrue result ↔ CanRise seen }
{
    let (Entry::Empty { tag }
    | Entry::Local { tag, .. }
    | Entry::Job { tag, .. }
    | Entry::Taken { tag, .. }) = seen;
    tag < (1 << 34) - 1
}
