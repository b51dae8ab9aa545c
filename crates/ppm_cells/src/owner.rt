//! What the owner of a deque does to its entries. `None` says that nothing is to be changed.
ghost use Rattle.std.specs.Prelude.{◌≡◌, ◌^◌, ◌<◌, IfSome};
ghost use Rattle.ppm_cells.specs.Entry.{IsEntry};
ghost use Rattle.ppm_cells.specs.DequeChange.{IsEmpty, IsLocal, IsJob, CanRise, OwnerChanges};
ghost use Rattle.ppm_cells.specs.Transitions.{pushed_above, pushed_job, popped_below, popped_above};
ghost use Rattle.ppm_cells.specs.Transitions.{TriesTo};

use crate::entry::Entry;

/// What an owner that goes back finds below its bottom.
#[derive(Clone, Copy, Debug, PartialEq, Eq)]
pub enum Pop {
    /// A job, with the entry that gets it back, and its fork block. A thief may come first.
    Try(Entry, u32),
    /// It is got back already: the job of this fork block.
    Mine(u32),
    /// It was taken, or nothing is there.
    Gone,
}

/// What an empty entry above the bottom becomes before the bottom becomes a job: the place of the
/// strand to come.
pub fn push_above(seen: Entry) -> Option<Entry>
    requires tag { IsEmpty seen → CanRise seen }
    ensures value { result ≡ pushed_above seen }
    ensures lawful { IfSome result (OwnerChanges seen) }
    ensures fits { IsEntry seen → IfSome result IsEntry }
{
    match seen {
        Entry::Empty { tag } => Some(Entry::Local {
            tag: tag + 1,
            block: 0,
        }),
        Entry::Local { .. } | Entry::Job { .. } | Entry::Taken { .. } => None,
    }
}

/// What the local bottom becomes: the job of the right branch of `block`, an address below 2^28.
pub fn push_job(seen: Entry, block: u32) -> Option<Entry>
    requires block { block < 2 ^ 28 }
    requires tag { IsLocal seen → CanRise seen }
    ensures value { result ≡ pushed_job seen block }
    ensures lawful { IfSome result (OwnerChanges seen) }
    ensures fits { IsEntry seen → IfSome result IsEntry }
{
    match seen {
        Entry::Local { tag, .. } => Some(Entry::Job {
            tag: tag + 1,
            block,
        }),
        Entry::Empty { .. } | Entry::Job { .. } | Entry::Taken { .. } => None,
    }
}

/// Whether the entry below the bottom can be got back.
pub fn pop_below(seen: Entry) -> Pop
    requires tag { IsJob seen → CanRise seen }
    ensures value { result ≡ popped_below seen }
    ensures lawful { TriesTo result (OwnerChanges seen) }
    ensures fits { IsEntry seen → TriesTo result IsEntry }
{
    match seen {
        Entry::Job { tag, block } => Pop::Try(
            Entry::Local {
                tag: tag + 1,
                block,
            },
            block,
        ),
        Entry::Local { block, .. } => Pop::Mine(block),
        Entry::Empty { .. } | Entry::Taken { .. } => Pop::Gone,
    }
}

/// What the old bottom becomes once the entry below it is got back: empty.
pub fn pop_above(seen: Entry) -> Option<Entry>
    requires tag { IsLocal seen → CanRise seen }
    ensures value { result ≡ popped_above seen }
    ensures lawful { IfSome result (OwnerChanges seen) }
    ensures fits { IsEntry seen → IfSome result IsEntry }
{
    match seen {
        Entry::Local { tag, .. } => Some(Entry::Empty { tag: tag + 1 }),
        Entry::Empty { .. } | Entry::Job { .. } | Entry::Taken { .. } => None,
    }
}
