//! The rows by which a dead processor's place is taken over.
ghost use Rattle.std.specs.Prelude.{◌≡◌, ◌+◌, ◌<◌};
ghost use Rattle.ppm_cells.specs.Holder.{IsHolder};
ghost use Rattle.ppm_step.specs.Rows.{makes_bid, bid_again, bid_holder};
ghost use Rattle.ppm_step.specs.Facts.{IsRow};

use crate::content::Content;
use crate::row::{Point, Row, Seat, Then, broken, load};
use ppm_cells::{Cell, Holder, RestartKind};

/// The bid in the message is made, if it is the own one.
pub fn make_bid(seat: &Seat, victim: u32, dead: u32, message: Holder) -> Row
    requires dead { dead < 64 }
    requires message { IsHolder message }
    ensures value { result ≡ makes_bid seat.now victim dead message }
    ensures fits { IsRow result }
{
    if message.processor != seat.own {
        return Row::Now(seat.with_kind(RestartKind::Seek));
    }
    if message.tag == 0 {
        return broken();
    }
    Row::Exchange {
        cell: Cell::HolderWord { place: victim },
        old: Content::AHolder(Holder {
            tag: message.tag - 1,
            processor: dead,
        }),
        new: Content::AHolder(message),
        then: seat.with_kind(RestartKind::Take2 { victim }),
    }
}

/// Whether the own bid stands is looked at.
pub fn check_bid(seat: &Seat, victim: u32, message: Holder) -> Row
    ensures value { result ≡ bid_again seat.now victim message }
    ensures fits { IsRow result }
{
    if message.processor == seat.own {
        load(Point::BidHolder { victim, message })
    } else {
        Row::Now(seat.with_kind(RestartKind::Seek))
    }
}

/// If it stands, the place is carried.
pub fn carry(seat: &Seat, victim: u32, message: Holder, now: Holder) -> Row
    ensures value { result ≡ bid_holder seat.now victim message now }
    ensures fits { IsRow result }
{
    if message.tag == now.tag && message.processor == now.processor {
        Row::Now(Then::Move { place: victim })
    } else {
        Row::Now(seat.with_kind(RestartKind::Seek))
    }
}
