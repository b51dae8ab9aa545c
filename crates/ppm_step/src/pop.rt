//! The rows by which a place gets its job back.
ghost use Rattle.std.specs.Prelude.{◌≡◌, ◌+◌, ◌≤◌, ◌<◌, IsTrue};
ghost use Rattle.ppm_cells.specs.Entry.{IsEntry};
ghost use Rattle.ppm_step.specs.Rows.{get_back, got_back, empty_above};
ghost use Rattle.ppm_step.specs.Facts.{IsAddress, IsRow};

use crate::entries::{rises, try_change};
use crate::row::{Point, Row, Seat, Then, broken, load};
use ppm_cells::{Cell, Entry, Pop, RestartKind, pop_above, pop_below};

/// The job below the bottom becomes local.
pub fn get_back(seat: &Seat, entry: Entry) -> Row
    requires entry { IsEntry entry }
    requires bottom { 1 ≤ seat.now.restart.bottom }
    ensures value { result ≡ get_back seat.now entry }
    ensures fits { IsRow result }
{
    match entry {
        Entry::Empty { .. } => return broken(),
        Entry::Taken { .. } => return Row::Now(seat.with_kind(RestartKind::Seek)),
        Entry::Local { .. } => {}
        Entry::Job { .. } => if !rises(entry) {
            return broken();
        },
    }
    match pop_below(entry) {
        Pop::Try(made, block) => {
            let cell = Cell::EntryWord {
                place: seat.place,
                slot: seat.restart.bottom - 1,
            };
            try_change(
                cell,
                entry,
                Some(made),
                seat.with_kind(RestartKind::Pop2 { block }),
            )
        }
        Pop::Mine(block) => Row::Now(seat.with_kind(RestartKind::Pop2 { block })),
        Pop::Gone => broken(),
    }
}

/// If the entry was got back, the one above it is looked at.
pub fn got_back(seat: &Seat, block: u32, entry: Entry) -> Row
    requires block { IsAddress block }
    ensures value { result ≡ got_back seat.now block entry }
    ensures fits { IsRow result }
{
    match entry {
        Entry::Local { .. } => load(Point::PopAbove { block }),
        Entry::Taken { .. } => Row::Now(seat.with_kind(RestartKind::Seek)),
        Entry::Empty { .. } | Entry::Job { .. } => broken(),
    }
}

/// The entry at the bottom is emptied, and the right branch begins one below.
pub fn empty_above(seat: &Seat, block: u32, entry: Entry) -> Row
    requires block { IsAddress block }
    requires entry { IsEntry entry }
    requires bottom { 1 ≤ seat.now.restart.bottom }
    ensures value { result ≡ empty_above seat.now block entry }
    ensures fits { IsRow result }
{
    let next = Then::Load(Point::Offset {
        block,
        bottom: seat.restart.bottom - 1,
    });
    let Entry::Local { .. } = entry else {
        return Row::Now(next);
    };
    if !rises(entry) {
        return broken();
    }
    let cell = Cell::EntryWord {
        place: seat.place,
        slot: seat.restart.bottom,
    };
    try_change(cell, entry, pop_above(entry), next)
}
