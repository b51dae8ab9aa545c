//! What a thief does to the entries of another's deque. `None` says that nothing is to be changed.
ghost use Rattle.std.specs.Prelude.{◌≡◌, ◌↔◌, ◌<◌, IsTrue, IfSome};
ghost use Rattle.ppm_cells.specs.Entry.{IsEntry};
ghost use Rattle.ppm_cells.specs.declared.shape.Takeover.TheVariants.{ByPlaces, ByEntries};
ghost use Rattle.ppm_cells.specs.DequeChange.{IsLocal, IsJob, CanRise, Takes, IsTakenNext};
ghost use Rattle.ppm_cells.specs.Transitions.{stolen, inherited};

use crate::entry::Entry;

/// Whether the entry is what a taker makes of one with this tag.
fn is_taken(now: Entry, seen: u64, by: u32) -> bool
    ensures { IsTrue result ↔ IsTakenNext now seen by }
{
    match now {
        Entry::Taken { tag, taker } => tag > 0 && tag - 1 == seen && taker == by,
        Entry::Empty { .. } | Entry::Local { .. } | Entry::Job { .. } => false,
    }
}

/// What a job becomes when the place `thief`, below 64, takes it.
pub fn steal(seen: Entry, thief: u32) -> Option<Entry>
    requires thief { thief < 64 }
    requires tag { IsJob seen → CanRise seen }
    ensures value { result ≡ stolen seen thief }
    ensures lawful { IfSome result (Takes ByPlaces thief seen) }
    ensures fits { IsEntry seen → IfSome result IsEntry }
{
    match seen {
        Entry::Job { tag, .. } => Some(Entry::Taken {
            tag: tag + 1,
            taker: thief,
        }),
        Entry::Empty { .. } | Entry::Local { .. } | Entry::Taken { .. } => None,
    }
}

/// What the local entry of a closed place becomes when the place `heir`, below 64, takes over its
/// strand.
pub fn inherit(seen: Entry, heir: u32) -> Option<Entry>
    requires heir { heir < 64 }
    requires tag { IsLocal seen → CanRise seen }
    ensures value { result ≡ inherited seen heir }
    ensures lawful { IfSome result (Takes ByEntries heir seen) }
    ensures fits { IsEntry seen → IfSome result IsEntry }
{
    match seen {
        Entry::Local { tag, .. } => Some(Entry::Taken {
            tag: tag + 1,
            taker: heir + 64,
        }),
        Entry::Empty { .. } | Entry::Job { .. } | Entry::Taken { .. } => None,
    }
}

/// Whether the place, below 64, has taken what it saw: `now` is what it makes of the entry in its
/// message.
pub fn won(message: Entry, now: Entry, place: u32) -> bool
    requires place { place < 64 }
    ensures exactly { IsTrue result ↔ Takes ByEntries place message now }
{
    match message {
        Entry::Job { tag, .. } => is_taken(now, tag, place),
        Entry::Local { tag, .. } => is_taken(now, tag, place + 64),
        Entry::Empty { .. } | Entry::Taken { .. } => false,
    }
}
