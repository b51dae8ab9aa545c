//! The rows of a frame that is over, and of the values that frames give.
ghost use Rattle.std.specs.Prelude.{◌≡◌, ◌+◌, ◌<◌, IfSome};
ghost use Rattle.ppm_cells.specs.Fields.{Fit};
ghost use Rattle.ppm_cells.specs.Finish.{IsFinish, IsOutcome};
ghost use Rattle.ppm_cells.specs.Link.{IsLink, link_address};
ghost use Rattle.ppm_step.specs.Rows.{unwind_by, trapped, unwound, after_value, target_found};
ghost use Rattle.ppm_step.specs.Rows.{value_found};
ghost use Rattle.ppm_step.specs.Facts.{IsAddress, IsFrame, IsThen, IsRow};

use crate::content::Content;
use crate::row::{Point, Row, Seat, Then, broken, load};
use ppm_cells::{Cell, Finish, LinkKind, RestartKind, Shape, Side};

/// By the link of the frame: its outcome is looked at.
pub fn unwind_link(frame: u32, link: LinkKind) -> Row
    requires frame { IsAddress frame }
    requires link { Fit (link_address link) }
    ensures value { result ≡ unwind_by frame link }
    ensures fits { IsRow result }
{
    match link {
        LinkKind::Fork { .. } => broken(),
        LinkKind::Root | LinkKind::Call { .. } | LinkKind::Branch { .. } => {
            load(Point::UnwindOutcome { frame, link })
        }
    }
}

/// A frame that waits takes a trap over.
pub fn take_over(seat: &Seat, to: u32, outcome: Finish) -> Row
    requires to { IsAddress to }
    requires outcome { IsFinish outcome }
    ensures value { result ≡ trapped seat.now to outcome }
    ensures fits { IsRow result }
{
    Row::Store {
        cell: Cell::outcome_word(to),
        content: Content::AFinish(outcome),
        then: seat.with_kind(RestartKind::Unwind { frame: to }),
    }
}

/// The frame's outcome goes where its link leads.
pub fn unwind_outcome(seat: &Seat, frame: u32, link: LinkKind, outcome: Finish) -> Row
    requires frame { IsAddress frame }
    requires link { Fit (link_address link) }
    requires fits { IsFinish outcome }
    requires outcome { IsOutcome outcome }
    ensures value { result ≡ unwound seat.now frame link outcome }
    ensures fits { IsRow result }
{
    match link {
        LinkKind::Root => Row::Exchange {
            cell: Cell::FinishWord,
            old: Content::ANumber(0),
            new: Content::AFinish(outcome),
            then: Then::Again,
        },
        LinkKind::Call { frame: to, copy } => match outcome {
            Finish::Ended => load(Point::Target {
                frame,
                to,
                copy,
                right_of: None,
            }),
            Finish::Unset
            | Finish::Trapped { .. }
            | Finish::OutOfTurns { .. }
            | Finish::OutOfRoom { .. }
            | Finish::Stopped
            | Finish::Broken { .. } => take_over(seat, to, outcome),
        },
        LinkKind::Branch { side, block } => Row::Store {
            cell: match side {
                Side::Left => Cell::left_outcome_word(block),
                Side::Right => Cell::right_outcome_word(block),
            },
            content: Content::AFinish(outcome),
            then: seat.with_kind(RestartKind::Arrive { block, side }),
        },
        LinkKind::Fork { .. } => broken(),
    }
}

/// What follows a value: that of the right branch, or the frame goes on.
fn after_value(seat: &Seat, to: u32, copy: u32, right_of: Option<u32>) -> Then
    requires to { IsAddress to }
    requires right_of { IfSome right_of IsAddress }
    ensures value { result ≡ after_value seat.now to copy right_of }
    ensures fits { IsThen result }
{
    match right_of {
        None => seat.with_kind(RestartKind::Run { frame: to, copy }),
        Some(block) => Then::Load(Point::RightFrame { block, to, copy }),
    }
}

/// Whether a value is to be given.
pub fn target(
    seat: &Seat,
    frame: u32,
    to: u32,
    copy: u32,
    right_of: Option<u32>,
    target: u64,
) -> Row
    requires frame { IsFrame frame }
    requires to { IsAddress to }
    requires right_of { IfSome right_of IsAddress }
    ensures value { result ≡ target_found seat.now frame to copy right_of target }
    ensures fits { IsRow result }
{
    if target == 0 {
        return Row::Now(after_value(seat, to, copy, right_of));
    }
    load(Point::GivenValue {
        frame,
        to,
        copy,
        target,
        right_of,
    })
}

/// Slot `target - 1` of the frame takes the value.
pub fn given_value(
    shape: &Shape,
    seat: &Seat,
    to: u32,
    copy: u32,
    target: u64,
    right_of: Option<u32>,
    value: u64,
) -> Row
    requires to { IsAddress to }
    requires right_of { IfSome right_of IsAddress }
    ensures value { result ≡ value_found shape.now seat.now to copy target right_of value }
    ensures fits { IsRow result }
{
    let words = u64::from(shape.word_count());
    let base = u64::from(to + 5);
    if base >= words || target >= words - base {
        return broken();
    }
    Row::Store {
        cell: Cell::BlockWord {
            address: to + 5 + target as u32,
        },
        content: Content::ANumber(value),
        then: after_value(seat, to, copy, right_of),
    }
}
