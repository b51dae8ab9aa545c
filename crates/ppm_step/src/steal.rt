//! The rows of a thief, and what it goes on with.
ghost use Rattle.std.specs.Prelude.{◌≡◌, ◌+◌, ◌<◌, IsTrue, IfSome};
ghost use Rattle.ppm_cells.specs.Entry.{IsEntry};
ghost use Rattle.ppm_cells.specs.DequeChange.{IsJob, IsLocal, CanRise};
ghost use Rattle.ppm_step.specs.Rows.{taken_so, steals, can_be_taken, taken_message, took};
ghost use Rattle.ppm_step.specs.Rows.{goes_on_with, taken_entry};
ghost use Rattle.ppm_step.specs.Facts.{IsRow};

use crate::entries::{rises, try_change};
use crate::row::{Point, Row, Seat, broken, load};
use ppm_cells::{Cell, Entry, RestartKind, Shape, Takeover, inherit, steal, won};

/// What a place makes of the entry that it is after.
fn take_so(takeover: Takeover, place: u32, entry: Entry) -> Option<Entry>
    requires place { place < 64 }
    requires entry { IsEntry entry }
    requires job { IsJob entry → CanRise entry }
    requires local { IsLocal entry → CanRise entry }
    ensures value { result ≡ taken_so takeover place entry }
    ensures fits { IfSome result IsEntry }
{
    match (takeover, entry) {
        (Takeover::ByEntries, Entry::Local { .. }) => inherit(entry, place),
        (Takeover::ByPlaces, Entry::Local { .. })
        | (_, Entry::Empty { .. } | Entry::Job { .. } | Entry::Taken { .. }) => steal(entry, place),
    }
}

/// Whether an entry may be taken at all.
fn takeable(takeover: Takeover, entry: Entry) -> bool
    ensures { result ≡ can_be_taken takeover entry }
{
    match (takeover, entry) {
        (_, Entry::Job { .. }) | (Takeover::ByEntries, Entry::Local { .. }) => true,
        (Takeover::ByPlaces, Entry::Local { .. })
        | (_, Entry::Empty { .. } | Entry::Taken { .. }) => false,
    }
}

/// The entry that was noted is taken.
pub fn take_noted(shape: &Shape, seat: &Seat, victim: u32, slot: u32, message: Entry) -> Row
    requires place { seat.now.place < 64 }
    requires message { IsEntry message }
    ensures value { result ≡ steals shape.now seat.now victim slot message }
    ensures fits { IsRow result }
{
    if !takeable(shape.takeover, message) || !rises(message) {
        return broken();
    }
    let cell = Cell::EntryWord {
        place: victim,
        slot,
    };
    try_change(
        cell,
        message,
        take_so(shape.takeover, seat.place, message),
        seat.with_kind(RestartKind::Check { victim, slot }),
    )
}

/// The entry is looked at again.
pub fn check_message(shape: &Shape, by: u32, victim: u32, slot: u32, message: Entry) -> Row
    requires by { by < 64 }
    requires victim { victim < 64 }
    requires slot { slot < 65536 }
    requires message { IsEntry message }
    ensures value { result ≡ taken_message shape.now by victim slot message }
    ensures fits { IsRow result }
{
    if takeable(shape.takeover, message) {
        load(Point::TakenEntry {
            by,
            victim,
            slot,
            message,
        })
    } else {
        broken()
    }
}

/// Whether the place has taken what it was after.
fn has_taken(place: u32, message: Entry, now: Entry) -> bool
    requires place { place < 64 }
    ensures { result ≡ took place message now }
{
    won(message, now, place)
}

/// What is taken is gone on with: a job's right branch, or a closed place's strand.
fn go_on_with(seat: &Seat, victim: u32, slot: u32, message: Entry) -> Row
    requires victim { victim < 64 }
    requires slot { slot < 65536 }
    requires message { IsEntry message }
    ensures value { result ≡ goes_on_with seat.now victim slot message }
    ensures fits { IsRow result }
{
    match message {
        Entry::Job { block, .. } => load(Point::Offset {
            block,
            bottom: seat.restart.bottom,
        }),
        Entry::Local { block, .. } => load(Point::ClosedRestart {
            victim,
            slot,
            block,
        }),
        Entry::Empty { .. } | Entry::Taken { .. } => broken(),
    }
}

/// If the place has taken it, it is gone on with.
pub fn check_entry(seat: &Seat, by: u32, victim: u32, slot: u32, message: Entry, now: Entry) -> Row
    requires by { by < 64 }
    requires victim { victim < 64 }
    requires slot { slot < 65536 }
    requires message { IsEntry message }
    ensures value { result ≡ taken_entry seat.now by victim slot message now }
    ensures fits { IsRow result }
{
    if has_taken(by, message, now) {
        go_on_with(seat, victim, slot, message)
    } else {
        Row::Now(seat.with_kind(RestartKind::Seek))
    }
}
