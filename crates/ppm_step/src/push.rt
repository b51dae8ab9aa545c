//! The rows that take a new block in: its words are taken from the pool, and the right branch of a
//! fork becomes a job.
ghost use Rattle.std.specs.Prelude.{◌≡◌, ◌+◌, ◌<◌, IsTrue};
ghost use Rattle.ppm_cells.specs.Entry.{IsEntry};
ghost use Rattle.ppm_cells.specs.Link.{IsLink};
ghost use Rattle.ppm_cells.specs.Restart.{IsRestart};
ghost use Rattle.ppm_step.specs.Rows.{bumped, push_at, push_by_order, push_above, push_bottom};
ghost use Rattle.ppm_step.specs.Facts.{IsAddress, IsRow};

use crate::content::Content;
use crate::entries::{rises, try_change};
use crate::row::{Point, Row, Seat, Then, broken, left_begins, load};
use ppm_cells::{Cell, Entry, Link, LinkKind, RestartKind, Takeover, push_above, push_job};

/// The room counter rises past the block.
pub fn bump(seat: &Seat, block: u32, link: Link) -> Row
    requires block { IsAddress block }
    requires link { IsLink link }
    ensures value { result ≡ bumped seat.now block link.size link.kind }
    ensures fits { IsRow result }
{
    let next = match link.kind {
        LinkKind::Call { .. } => seat.with_kind(RestartKind::Run {
            frame: block,
            copy: 0,
        }),
        LinkKind::Fork { .. } => Then::Fork { block },
        LinkKind::Root | LinkKind::Branch { .. } => return broken(),
    };
    Row::Store {
        cell: Cell::RoomCounter { place: seat.place },
        content: Content::ANumber(u64::from(block + link.size)),
        then: next,
    }
}

/// At the last slot one strand runs both branches; else an entry is looked at.
pub fn push(seat: &Seat, takeover: Takeover, block: u32, is_last: bool) -> Row
    requires block { IsAddress block }
    ensures value { result ≡ push_at seat.now takeover block is_last }
    ensures fits { IsRow result }
{
    if is_last {
        return Row::Store {
            cell: Cell::order_word(block),
            content: Content::ANumber(3),
            then: left_begins(block, seat.restart.bottom),
        };
    }
    match takeover {
        Takeover::ByPlaces => load(Point::PushAbove { block }),
        Takeover::ByEntries => load(Point::PushOrder { block }),
    }
}

/// One strand runs both branches already, or the entry above is looked at.
pub fn push_order(seat: &Seat, block: u32, order: u64) -> Row
    requires block { IsAddress block }
    ensures value { result ≡ push_by_order seat.now block order }
    ensures fits { IsRow result }
{
    if order == 3 {
        Row::Now(left_begins(block, seat.restart.bottom))
    } else {
        load(Point::PushAbove { block })
    }
}

/// The entry above the bottom becomes local.
pub fn make_above(seat: &Seat, block: u32, entry: Entry) -> Row
    requires entry { IsEntry entry }
    requires restart { IsRestart seat.now.restart }
    ensures value { result ≡ push_above seat.now block entry }
    ensures fits { IsRow result }
{
    let next = seat.with_kind(RestartKind::Push2 { block });
    let Entry::Empty { .. } = entry else {
        return Row::Now(next);
    };
    if !rises(entry) {
        return broken();
    }
    let cell = Cell::EntryWord {
        place: seat.place,
        slot: seat.restart.bottom + 1,
    };
    try_change(cell, entry, push_above(entry), next)
}

/// The entry at the bottom becomes the job.
pub fn make_job(seat: &Seat, block: u32, entry: Entry) -> Row
    requires block { IsAddress block }
    requires entry { IsEntry entry }
    requires restart { IsRestart seat.now.restart }
    ensures value { result ≡ push_bottom seat.now block entry }
    ensures fits { IsRow result }
{
    let next = left_begins(block, seat.restart.bottom + 1);
    let Entry::Local { .. } = entry else {
        return Row::Now(next);
    };
    if !rises(entry) {
        return broken();
    }
    let cell = Cell::EntryWord {
        place: seat.place,
        slot: seat.restart.bottom,
    };
    try_change(cell, entry, push_job(entry, block), next)
}
