//! Rows that change an entry.
ghost use Rattle.std.specs.Prelude.{◌≡◌, ◌↔◌, ◌+◌, ◌^◌, nat_lt, IsTrue, IfSome};
ghost use Rattle.ppm_cells.specs.Entry.{IsEntry};
ghost use Rattle.ppm_cells.specs.DequeChange.{CanRise, tag_of};
ghost use Rattle.ppm_step.specs.Rows.{tried, changed};
ghost use Rattle.ppm_step.specs.Facts.{IsThen, IsRow};

use crate::content::Content;
use crate::row::{Row, Then};
use ppm_cells::{Cell, Entry, entry_can_rise};

/// Whether the entry's tag is not the last.
pub fn rises(entry: Entry) -> bool
    ensures value { result ≡ nat_lt (tag_of entry + 1) (2 ^ 34) }
    ensures exactly { IsTrue result ↔ CanRise entry }
{
    entry_can_rise(entry)
}

/// A change of the entry that was seen, if one is to be made, and then what follows.
pub fn try_change(cell: Cell, seen: Entry, made: Option<Entry>, next: Then) -> Row
    requires seen { IsEntry seen }
    requires made { IfSome made IsEntry }
    requires next { IsThen next }
    ensures value { result ≡ tried cell seen made next }
    ensures fits { IsRow result }
{
    let Some(new) = made else {
        return Row::Now(next);
    };
    if !rises(seen) {
        return Row::Now(Then::Broken);
    }
    Row::Exchange {
        cell,
        old: Content::AnEntry(seen),
        new: Content::AnEntry(new),
        then: next,
    }
}
