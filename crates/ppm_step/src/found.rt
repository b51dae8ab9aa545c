//! How the row of a kind begins, and how it goes on with what it has loaded.
ghost use Rattle.std.specs.Prelude.{◌≡◌, ℕ};
ghost use Rattle.ppm_cells.specs.declared.shape.Shape.{Shape};
ghost use Rattle.ppm_cells.specs.Entry.{IsEntry};
ghost use Rattle.ppm_cells.specs.Finish.{IsFinish};
ghost use Rattle.ppm_cells.specs.Holder.{IsHolder};
ghost use Rattle.ppm_cells.specs.Link.{IsLink};
ghost use Rattle.ppm_cells.specs.Restart.{IsRestart};
ghost use Rattle.ppm_cells.specs.JoinOutcome.{outcome_of_both};
ghost use Rattle.ppm_step.specs.Contents.{IsContent};
ghost use Rattle.ppm_step.specs.Rows.{found_at, row_of, by_places};
ghost use Rattle.ppm_step.specs.Facts.{IsPoint, IsSeat, IsRow};
ghost use Rattle.ppm_step.specs.declared.content.Content.TheVariants.{ANumber, ARestart, AnEntry};
ghost use Rattle.ppm_step.specs.declared.content.Content.TheVariants.{AHolder, ALink, AFinish};
ghost use Rattle.ppm_step.specs.declared.row.Row.TheVariants.{Now};
ghost use Rattle.ppm_step.specs.declared.row.Then.TheVariants.{Load};

use crate::bid::{carry, check_bid, make_bid};
use crate::closed::{follow, follow_bottom, follow_link};
use crate::content::Content;
use crate::join::{arrive, begin_right, join_link, join_order, join_outcome, right_target};
use crate::pop::{empty_above, get_back, got_back};
use crate::push::{bump, make_above, make_job, push, push_order};
use crate::row::{Point, Row, Seat, Then, broken, load};
use crate::seek::{seek_at_top, seek_found, seek_held, seek_if_closed, seek_if_dead};
use crate::steal::{check_entry, check_message, take_noted};
use crate::unwind::{given_value, target, unwind_link, unwind_outcome};
use ppm_cells::{Entry, Finish, Holder, Link, Restart, RestartKind, Shape, Takeover, joined};

/// How a row begins that a takeover by places alone has.
fn by_places(shape: &Shape, point: Point) -> Row
    requires { IsPoint point }
    ensures value { result ≡ by_places shape.now.takeover (Now (Load point)) }
    ensures fits { IsRow result }
{
    match shape.takeover {
        Takeover::ByPlaces => load(point),
        Takeover::ByEntries => broken(),
    }
}

/// How the row of a kind begins.
pub fn row_of(shape: &Shape, seat: &Seat) -> Row
    requires { IsSeat shape.now seat.now }
    ensures value { result ≡ row_of shape.now seat.now seat.now.restart.kind }
    ensures fits { IsRow result }
{
    match seat.restart.kind {
        RestartKind::Run { frame, copy } => load(Point::Header { frame, copy }),
        RestartKind::Bump { block } => load(Point::BumpLink { block }),
        RestartKind::Push1 { block } => push(
            seat,
            shape.takeover,
            block,
            seat.restart.bottom + 1 == shape.slots,
        ),
        RestartKind::Push2 { block } => load(Point::PushBottom { block }),
        RestartKind::Unwind { frame } => load(Point::UnwindLink { frame }),
        RestartKind::Arrive { block, side } => arrive(seat, block, side),
        RestartKind::Join { block, side } => load(Point::JoinOrder { block, side }),
        RestartKind::Pop1 => load(Point::PopBelow),
        RestartKind::Pop2 { block } => load(Point::PopAgain { block }),
        RestartKind::Seek => load(Point::SeekHolder),
        RestartKind::Steal { victim, slot } => load(Point::StealMessage { victim, slot }),
        RestartKind::Check { victim, slot } => load(Point::TakenMessage {
            by: seat.place,
            victim,
            slot,
        }),
        RestartKind::Take { victim, dead } => by_places(shape, Point::BidMessage { victim, dead }),
        RestartKind::Take2 { victim } => by_places(shape, Point::BidAgain { victim }),
    }
}

/// How a row goes on with a number.
fn found_number(shape: &Shape, seat: &Seat, point: &Point, number: u64) -> Row
    requires seat { IsSeat shape.now seat.now }
    requires point { IsPoint point.now }
    ensures value { (victim : ℕ)
        → result ≡ found_at shape.now seat.now victim point.now (ANumber number) }
    ensures fits { IsRow result }
{
    match *point {
        Point::Header { .. } => Row::Now(Then::Enter { capsule: number }),
        Point::PushOrder { block } => push_order(seat, block, number),
        Point::Target {
            frame,
            to,
            copy,
            right_of,
        } => target(seat, frame, to, copy, right_of, number),
        Point::GivenValue {
            to,
            copy,
            target,
            right_of,
            ..
        } => given_value(shape, seat, to, copy, target, right_of, number),
        Point::JoinOrder { block, side } => join_order(seat, block, side, number),
        Point::RightFrame { block, to, copy } => right_target(shape, block, to, copy, number),
        Point::Offset { block, bottom } => begin_right(shape, block, bottom, number),
        Point::SeekDead { victim, holder } => seek_if_dead(seat, victim, holder, number),
        Point::SeekTop { victim } => seek_at_top(shape, victim, number),
        Point::SeekClosed {
            victim,
            slot,
            entry,
        } => seek_if_closed(seat, victim, slot, entry, number),
        Point::BumpLink { .. }
        | Point::PushAbove { .. }
        | Point::PushBottom { .. }
        | Point::UnwindLink { .. }
        | Point::UnwindOutcome { .. }
        | Point::JoinLink { .. }
        | Point::JoinLeft { .. }
        | Point::JoinRight { .. }
        | Point::PopBelow
        | Point::PopAgain { .. }
        | Point::PopAbove { .. }
        | Point::SeekHolder
        | Point::SeekEntry { .. }
        | Point::StealMessage { .. }
        | Point::TakenMessage { .. }
        | Point::TakenEntry { .. }
        | Point::ClosedRestart { .. }
        | Point::ClosedLink { .. }
        | Point::ClosedBottom { .. }
        | Point::BidMessage { .. }
        | Point::BidAgain { .. }
        | Point::BidHolder { .. } => broken(),
    }
}

/// How a row goes on with an entry.
fn found_entry(shape: &Shape, seat: &Seat, point: &Point, entry: Entry) -> Row
    requires seat { IsSeat shape.now seat.now }
    requires point { IsPoint point.now }
    requires entry { IsEntry entry }
    ensures value { (victim : ℕ)
        → result ≡ found_at shape.now seat.now victim point.now (AnEntry entry) }
    ensures fits { IsRow result }
{
    match *point {
        Point::PushAbove { block } => make_above(seat, block, entry),
        Point::PushBottom { block } => make_job(seat, block, entry),
        Point::PopBelow => get_back(seat, entry),
        Point::PopAgain { block } => got_back(seat, block, entry),
        Point::PopAbove { block } => empty_above(seat, block, entry),
        Point::SeekEntry { victim, slot } => seek_found(shape, seat, victim, slot, entry),
        Point::StealMessage { victim, slot } => take_noted(shape, seat, victim, slot, entry),
        Point::TakenMessage { by, victim, slot } => check_message(shape, by, victim, slot, entry),
        Point::TakenEntry {
            by,
            victim,
            slot,
            message,
        } => check_entry(seat, by, victim, slot, message, entry),
        Point::ClosedBottom { block, .. } => follow_bottom(seat, block, entry),
        Point::Header { .. }
        | Point::BumpLink { .. }
        | Point::PushOrder { .. }
        | Point::UnwindLink { .. }
        | Point::UnwindOutcome { .. }
        | Point::Target { .. }
        | Point::GivenValue { .. }
        | Point::JoinOrder { .. }
        | Point::JoinLink { .. }
        | Point::JoinLeft { .. }
        | Point::JoinRight { .. }
        | Point::RightFrame { .. }
        | Point::Offset { .. }
        | Point::SeekHolder
        | Point::SeekDead { .. }
        | Point::SeekTop { .. }
        | Point::SeekClosed { .. }
        | Point::ClosedRestart { .. }
        | Point::ClosedLink { .. }
        | Point::BidMessage { .. }
        | Point::BidAgain { .. }
        | Point::BidHolder { .. } => broken(),
    }
}

/// How a row goes on with a holder.
fn found_holder(shape: &Shape, seat: &Seat, victim: u32, point: &Point, holder: Holder) -> Row
    requires seat { IsSeat shape.now seat.now }
    requires point { IsPoint point.now }
    requires holder { IsHolder holder }
    ensures value { result ≡ found_at shape.now seat.now victim point.now (AHolder holder) }
    ensures fits { IsRow result }
{
    match *point {
        Point::SeekHolder => seek_held(shape, seat, victim, holder),
        Point::BidMessage { victim, dead } => make_bid(seat, victim, dead, holder),
        Point::BidAgain { victim } => check_bid(seat, victim, holder),
        Point::BidHolder { victim, message } => carry(seat, victim, message, holder),
        Point::Header { .. }
        | Point::BumpLink { .. }
        | Point::PushOrder { .. }
        | Point::PushAbove { .. }
        | Point::PushBottom { .. }
        | Point::UnwindLink { .. }
        | Point::UnwindOutcome { .. }
        | Point::Target { .. }
        | Point::GivenValue { .. }
        | Point::JoinOrder { .. }
        | Point::JoinLink { .. }
        | Point::JoinLeft { .. }
        | Point::JoinRight { .. }
        | Point::RightFrame { .. }
        | Point::Offset { .. }
        | Point::PopBelow
        | Point::PopAgain { .. }
        | Point::PopAbove { .. }
        | Point::SeekDead { .. }
        | Point::SeekTop { .. }
        | Point::SeekEntry { .. }
        | Point::SeekClosed { .. }
        | Point::StealMessage { .. }
        | Point::TakenMessage { .. }
        | Point::TakenEntry { .. }
        | Point::ClosedRestart { .. }
        | Point::ClosedLink { .. }
        | Point::ClosedBottom { .. } => broken(),
    }
}

/// How a row goes on with a link.
fn found_link(seat: &Seat, point: &Point, link: Link) -> Row
    requires point { IsPoint point.now }
    requires link { IsLink link }
    ensures value { (s : Shape) (victim : ℕ)
        → result ≡ found_at s seat.now victim point.now (ALink link) }
    ensures fits { IsRow result }
{
    match *point {
        Point::BumpLink { block } => bump(seat, block, link),
        Point::UnwindLink { frame } => unwind_link(frame, link.kind),
        Point::JoinLink { block } => join_link(block, link.kind),
        Point::ClosedLink { block } => follow_link(seat, block, link.kind),
        Point::Header { .. }
        | Point::PushOrder { .. }
        | Point::PushAbove { .. }
        | Point::PushBottom { .. }
        | Point::UnwindOutcome { .. }
        | Point::Target { .. }
        | Point::GivenValue { .. }
        | Point::JoinOrder { .. }
        | Point::JoinLeft { .. }
        | Point::JoinRight { .. }
        | Point::RightFrame { .. }
        | Point::Offset { .. }
        | Point::PopBelow
        | Point::PopAgain { .. }
        | Point::PopAbove { .. }
        | Point::SeekHolder
        | Point::SeekDead { .. }
        | Point::SeekTop { .. }
        | Point::SeekEntry { .. }
        | Point::SeekClosed { .. }
        | Point::StealMessage { .. }
        | Point::TakenMessage { .. }
        | Point::TakenEntry { .. }
        | Point::ClosedRestart { .. }
        | Point::ClosedBottom { .. }
        | Point::BidMessage { .. }
        | Point::BidAgain { .. }
        | Point::BidHolder { .. } => broken(),
    }
}

/// How a row goes on with an outcome; other finish words are broken.
fn found_finish(seat: &Seat, point: &Point, finish: Finish) -> Row
    requires point { IsPoint point.now }
    requires finish { IsFinish finish }
    ensures value { (s : Shape) (victim : ℕ)
        → result ≡ found_at s seat.now victim point.now (AFinish finish) }
    ensures fits { IsRow result }
{
    if !finish.is_outcome() {
        return broken();
    }
    match *point {
        Point::UnwindOutcome { frame, link } => unwind_outcome(seat, frame, link, finish),
        Point::JoinLeft { block, to, copy } => load(Point::JoinRight {
            block,
            to,
            copy,
            left: finish,
        }),
        Point::JoinRight {
            block,
            to,
            copy,
            left,
        } => join_outcome(seat, block, to, copy, joined(left, finish)),
        Point::Header { .. }
        | Point::BumpLink { .. }
        | Point::PushOrder { .. }
        | Point::PushAbove { .. }
        | Point::PushBottom { .. }
        | Point::UnwindLink { .. }
        | Point::Target { .. }
        | Point::GivenValue { .. }
        | Point::JoinOrder { .. }
        | Point::JoinLink { .. }
        | Point::RightFrame { .. }
        | Point::Offset { .. }
        | Point::PopBelow
        | Point::PopAgain { .. }
        | Point::PopAbove { .. }
        | Point::SeekHolder
        | Point::SeekDead { .. }
        | Point::SeekTop { .. }
        | Point::SeekEntry { .. }
        | Point::SeekClosed { .. }
        | Point::StealMessage { .. }
        | Point::TakenMessage { .. }
        | Point::TakenEntry { .. }
        | Point::ClosedRestart { .. }
        | Point::ClosedLink { .. }
        | Point::ClosedBottom { .. }
        | Point::BidMessage { .. }
        | Point::BidAgain { .. }
        | Point::BidHolder { .. } => broken(),
    }
}

/// How a row goes on with a restart word.
fn found_restart(shape: &Shape, seat: &Seat, point: &Point, restart: Restart) -> Row
    requires seat { IsSeat shape.now seat.now }
    requires point { IsPoint point.now }
    requires restart { IsRestart restart }
    ensures value { (victim : ℕ)
        → result ≡ found_at shape.now seat.now victim point.now (ARestart restart) }
    ensures fits { IsRow result }
{
    match *point {
        Point::ClosedRestart {
            victim,
            slot,
            block,
        } => follow(shape, seat, victim, slot, block, restart),
        Point::Header { .. }
        | Point::BumpLink { .. }
        | Point::PushOrder { .. }
        | Point::PushAbove { .. }
        | Point::PushBottom { .. }
        | Point::UnwindLink { .. }
        | Point::UnwindOutcome { .. }
        | Point::Target { .. }
        | Point::GivenValue { .. }
        | Point::JoinOrder { .. }
        | Point::JoinLink { .. }
        | Point::JoinLeft { .. }
        | Point::JoinRight { .. }
        | Point::RightFrame { .. }
        | Point::Offset { .. }
        | Point::PopBelow
        | Point::PopAgain { .. }
        | Point::PopAbove { .. }
        | Point::SeekHolder
        | Point::SeekDead { .. }
        | Point::SeekTop { .. }
        | Point::SeekEntry { .. }
        | Point::SeekClosed { .. }
        | Point::StealMessage { .. }
        | Point::TakenMessage { .. }
        | Point::TakenEntry { .. }
        | Point::ClosedLink { .. }
        | Point::ClosedBottom { .. }
        | Point::BidMessage { .. }
        | Point::BidAgain { .. }
        | Point::BidHolder { .. } => broken(),
    }
}

/// How a row goes on with what it has loaded, where the turn names this victim.
pub fn found_at(shape: &Shape, seat: &Seat, victim: u32, point: &Point, content: Content) -> Row
    requires seat { IsSeat shape.now seat.now }
    requires point { IsPoint point.now }
    requires content { IsContent content }
    ensures value { result ≡ found_at shape.now seat.now victim point.now content }
    ensures fits { IsRow result }
{
    match content {
        Content::ANumber(number) => found_number(shape, seat, point, number),
        Content::ARestart(restart) => found_restart(shape, seat, point, restart),
        Content::AnEntry(entry) => found_entry(shape, seat, point, entry),
        Content::AHolder(holder) => found_holder(shape, seat, victim, point, holder),
        Content::ALink(link) => found_link(seat, point, link),
        Content::AFinish(finish) => found_finish(seat, point, finish),
        Content::Unreadable => broken(),
    }
}
