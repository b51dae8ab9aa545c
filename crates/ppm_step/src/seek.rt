//! The rows of a place that looks for a job.
ghost use Rattle.std.specs.Prelude.{◌≡◌, ◌+◌, ◌^◌, ◌<◌, ◌↔◌, nat_lt, IsTrue};
ghost use Rattle.ppm_cells.specs.Entry.{IsEntry};
ghost use Rattle.ppm_cells.specs.Holder.{IsHolder};
ghost use Rattle.ppm_cells.specs.HoldChange.{CanRise};
ghost use Rattle.ppm_step.specs.Rows.{seek_holder, seek_dead, seek_top, notes, passes_by};
ghost use Rattle.ppm_step.specs.Rows.{seek_entry, seek_closed};
ghost use Rattle.ppm_step.specs.Facts.{IsRow};

use crate::content::Content;
use crate::row::{Point, Row, Seat, Then, broken, load};
use ppm_cells::{Cell, Entry, Holder, RestartKind, Shape, Takeover, bid, holder_can_rise};

/// By who holds the victim.
pub fn seek_held(shape: &Shape, seat: &Seat, victim: u32, holder: Holder) -> Row
    requires holder { IsHolder holder }
    ensures value { result ≡ seek_holder shape.now seat.now victim holder }
    ensures fits { IsRow result }
{
    if victim == seat.place {
        return Row::Now(Then::Again);
    }
    match shape.takeover {
        Takeover::ByPlaces => if holder.processor == seat.own {
            load(Point::SeekTop { victim })
        } else {
            load(Point::SeekDead { victim, holder })
        },
        Takeover::ByEntries => load(Point::SeekTop { victim }),
    }
}

/// Whether the holder's tag is not the last.
fn rises(holder: Holder) -> bool
    ensures value { result ≡ nat_lt (holder.tag + 1) (2 ^ 58) }
    ensures exactly { IsTrue result ↔ CanRise holder }
{
    holder_can_rise(holder)
}

/// A dead processor's place is bid for; of another one the jobs are looked at.
pub fn seek_if_dead(seat: &Seat, victim: u32, holder: Holder, dead: u64) -> Row
    requires own { seat.now.own < 64 }
    ensures value { result ≡ seek_dead seat.now victim holder dead }
    ensures fits { IsRow result }
{
    if dead != 1 {
        return load(Point::SeekTop { victim });
    }
    if !rises(holder) {
        return broken();
    }
    Row::Store {
        cell: Cell::MessageWord { place: seat.place },
        content: Content::AHolder(bid(holder, seat.own)),
        then: seat.with_kind(RestartKind::Take {
            victim,
            dead: holder.processor,
        }),
    }
}

/// The entry at the top is looked at.
pub fn seek_at_top(shape: &Shape, victim: u32, top: u64) -> Row
    ensures value { result ≡ seek_top shape.now victim top }
    ensures fits { IsRow result }
{
    if top >= u64::from(shape.slots) {
        return broken();
    }
    load(Point::SeekEntry {
        victim,
        slot: top as u32,
    })
}

/// The entry is noted in the message.
fn note(seat: &Seat, victim: u32, slot: u32, entry: Entry) -> Row
    requires entry { IsEntry entry }
    ensures value { result ≡ notes seat.now victim slot entry }
    ensures fits { IsRow result }
{
    Row::Store {
        cell: Cell::MessageWord { place: seat.place },
        content: Content::AnEntry(entry),
        then: seat.with_kind(RestartKind::Steal { victim, slot }),
    }
}

/// The top goes past a taken entry; with takeover by entries not past the last one.
fn pass_by(shape: &Shape, victim: u32, slot: u32) -> Row
    ensures value { result ≡ passes_by shape.now victim slot shape.now.takeover }
    ensures fits { IsRow result }
{
    let above = u64::from(slot) + 1;
    match shape.takeover {
        Takeover::ByEntries if above >= u64::from(shape.slots) => Row::Now(Then::Again),
        Takeover::ByPlaces | Takeover::ByEntries => Row::Exchange {
            cell: Cell::Top { place: victim },
            old: Content::ANumber(u64::from(slot)),
            new: Content::ANumber(above),
            then: Then::Again,
        },
    }
}

/// A job is gone after, a taken entry passed.
pub fn seek_found(shape: &Shape, seat: &Seat, victim: u32, slot: u32, entry: Entry) -> Row
    requires entry { IsEntry entry }
    ensures value { result ≡ seek_entry shape.now seat.now victim slot entry }
    ensures fits { IsRow result }
{
    match entry {
        Entry::Empty { .. } => Row::Now(Then::Again),
        Entry::Local { .. } => match shape.takeover {
            Takeover::ByPlaces => Row::Now(Then::Again),
            Takeover::ByEntries => load(Point::SeekClosed {
                victim,
                slot,
                entry,
            }),
        },
        Entry::Job { .. } => note(seat, victim, slot, entry),
        Entry::Taken { .. } => pass_by(shape, victim, slot),
    }
}

/// The local entry of a closed place is gone after.
pub fn seek_if_closed(seat: &Seat, victim: u32, slot: u32, entry: Entry, dead: u64) -> Row
    requires entry { IsEntry entry }
    ensures value { result ≡ seek_closed seat.now victim slot entry dead }
    ensures fits { IsRow result }
{
    if dead == 1 {
        note(seat, victim, slot, entry)
    } else {
        Row::Now(Then::Again)
    }
}
