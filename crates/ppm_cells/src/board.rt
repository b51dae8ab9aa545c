//! The entry of a plain board, on which jobs are posted and from which they are only stolen. No row
//! of the machine uses it.
ghost use Rattle.std.specs.Prelude.{◌≡◌, ◌^◌, ◌<◌, IfSome};
ghost use Rattle.ppm_cells.specs.Entry.{IsEntry};
ghost use Rattle.ppm_cells.specs.DequeChange.{IsEmpty, CanRise, BoardChanges};
ghost use Rattle.ppm_cells.specs.Transitions.{posted};

use crate::entry::Entry;

/// What an empty entry becomes: the job of the right branch of `block`, an address below 2^28.
/// `None` says that nothing is to be changed.
pub fn post(seen: Entry, block: u32) -> Option<Entry>
    requires block { block < 2 ^ 28 }
    requires tag { IsEmpty seen → CanRise seen }
    ensures value { result ≡ posted seen block }
    ensures lawful { IfSome result (BoardChanges seen) }
    ensures fits { IsEntry seen → IfSome result IsEntry }
{
    match seen {
        Entry::Empty { tag } => Some(Entry::Job {
            tag: tag + 1,
            block,
        }),
        Entry::Local { .. } | Entry::Job { .. } | Entry::Taken { .. } => None,
    }
}
