//! How the strand of a closed place goes on at the place that has taken its entry.
ghost use Rattle.std.specs.Prelude.{◌≡◌, ◌+◌, ◌<◌};
ghost use Rattle.ppm_cells.specs.Fields.{Fit};
ghost use Rattle.ppm_cells.specs.Restart.{address_fields, IsRestart};
ghost use Rattle.ppm_step.specs.Rows.{at_bottom, above_bottom, below_bottom, by_slot, follows};
ghost use Rattle.ppm_step.specs.Rows.{closed_link, closed_bottom};
ghost use Rattle.ppm_step.specs.Facts.{IsAddress, IsRow};

use crate::row::{Point, Row, Seat, Then, broken, left_begins, load};
use crate::there::restart_there;
use ppm_cells::{Entry, LinkKind, Restart, RestartKind, Shape};

/// By what the closed place was at, where the entry at its bottom was taken.
fn go_on_at_bottom(seat: &Seat, victim: u32, kind: RestartKind) -> Row
    requires victim { victim < 64 }
    requires kind { Fit (address_fields kind) }
    ensures value { result ≡ at_bottom seat.now victim kind }
    ensures fits { IsRow result }
{
    match kind {
        RestartKind::Run { .. }
        | RestartKind::Push1 { .. }
        | RestartKind::Unwind { .. }
        | RestartKind::Arrive { .. }
        | RestartKind::Join { .. } => Row::Now(seat.with_kind(kind)),
        RestartKind::Bump { block } => load(Point::ClosedLink { block }),
        RestartKind::Push2 { block } => Row::Now(seat.with_kind(RestartKind::Push1 { block })),
        RestartKind::Steal {
            victim: other,
            slot,
        }
        | RestartKind::Check {
            victim: other,
            slot,
        } => {
            load(Point::TakenMessage {
                by: victim,
                victim: other,
                slot,
            })
        }
        RestartKind::Pop1
        | RestartKind::Pop2 { .. }
        | RestartKind::Seek
        | RestartKind::Take { .. }
        | RestartKind::Take2 { .. } => Row::Now(seat.with_kind(RestartKind::Seek)),
    }
}

/// Where the entry above its bottom was taken.
fn go_on_above(seat: &Seat, victim: u32, bottom: u32, kind: RestartKind) -> Row
    requires kind { Fit (address_fields kind) }
    ensures value { result ≡ above_bottom seat.now victim bottom kind }
    ensures fits { IsRow result }
{
    match kind {
        RestartKind::Push2 { block } => load(Point::ClosedBottom {
            victim,
            slot: bottom,
            block,
        }),
        RestartKind::Run { .. }
        | RestartKind::Bump { .. }
        | RestartKind::Push1 { .. }
        | RestartKind::Unwind { .. }
        | RestartKind::Arrive { .. }
        | RestartKind::Join { .. }
        | RestartKind::Pop1
        | RestartKind::Pop2 { .. }
        | RestartKind::Seek
        | RestartKind::Steal { .. }
        | RestartKind::Check { .. }
        | RestartKind::Take { .. }
        | RestartKind::Take2 { .. } => Row::Now(seat.with_kind(RestartKind::Seek)),
    }
}

/// Where the entry below its bottom was taken.
fn go_on_below(seat: &Seat, block: u32, kind: RestartKind) -> Row
    requires block { IsAddress block }
    ensures value { result ≡ below_bottom seat.now block kind }
    ensures fits { IsRow result }
{
    match kind {
        RestartKind::Pop1 | RestartKind::Pop2 { .. } => load(Point::Offset {
            block,
            bottom: seat.restart.bottom,
        }),
        RestartKind::Run { .. }
        | RestartKind::Bump { .. }
        | RestartKind::Push1 { .. }
        | RestartKind::Push2 { .. }
        | RestartKind::Unwind { .. }
        | RestartKind::Arrive { .. }
        | RestartKind::Join { .. }
        | RestartKind::Seek
        | RestartKind::Steal { .. }
        | RestartKind::Check { .. }
        | RestartKind::Take { .. }
        | RestartKind::Take2 { .. } => Row::Now(seat.with_kind(RestartKind::Seek)),
    }
}

/// By the slot that was taken.
fn go_on_by_slot(seat: &Seat, victim: u32, slot: u32, block: u32, closed: Restart) -> Row
    requires victim { victim < 64 }
    requires slot { slot < 65536 }
    requires block { IsAddress block }
    requires closed { IsRestart closed }
    ensures value { result ≡ by_slot seat.now victim slot block closed }
    ensures fits { IsRow result }
{
    if slot == closed.bottom {
        go_on_at_bottom(seat, victim, closed.kind)
    } else if slot == closed.bottom + 1 {
        go_on_above(seat, victim, closed.bottom, closed.kind)
    } else if slot + 1 == closed.bottom {
        go_on_below(seat, block, closed.kind)
    } else {
        Row::Now(seat.with_kind(RestartKind::Seek))
    }
}

/// By the restart word of the closed place.
pub fn follow(
    shape: &Shape,
    seat: &Seat,
    victim: u32,
    slot: u32,
    block: u32,
    closed: Restart,
) -> Row
    requires victim { victim < 64 }
    requires slot { slot < 65536 }
    requires block { IsAddress block }
    requires closed { IsRestart closed }
    ensures value { result ≡ follows shape.now seat.now victim slot block closed }
    ensures fits { IsRow result }
{
    if restart_there(shape, closed) {
        go_on_by_slot(seat, victim, slot, block, closed)
    } else {
        broken()
    }
}

/// By the link of the block that it had built.
pub fn follow_link(seat: &Seat, block: u32, link: LinkKind) -> Row
    ensures value { result ≡ closed_link seat.now block link }
    ensures fits { IsRow result }
{
    match link {
        LinkKind::Call { .. } => Row::Now(seat.with_kind(RestartKind::Run {
            frame: block,
            copy: 0,
        })),
        LinkKind::Fork { .. } => Row::Now(Then::Fork { block }),
        LinkKind::Root | LinkKind::Branch { .. } => broken(),
    }
}

/// If its bottom was taken as a job, the left branch goes on.
pub fn follow_bottom(seat: &Seat, block: u32, entry: Entry) -> Row
    requires block { IsAddress block }
    ensures value { result ≡ closed_bottom seat.now block entry }
    ensures fits { IsRow result }
{
    match entry {
        Entry::Taken { taker, .. } if taker < 64 => {
            Row::Now(left_begins(block, seat.restart.bottom))
        }
        Entry::Empty { .. } | Entry::Local { .. } | Entry::Job { .. } | Entry::Taken { .. } => {
            Row::Now(seat.with_kind(RestartKind::Seek))
        }
    }
}
