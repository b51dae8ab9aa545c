//! The rows of a branch that has come to its join.
ghost use Rattle.std.specs.Prelude.{◌≡◌, ◌+◌, ◌<◌, ◌↔◌, IsTrue};
ghost use Rattle.ppm_cells.specs.Fields.{Fit};
ghost use Rattle.ppm_cells.specs.Finish.{IsFinish, IsOutcome};
ghost use Rattle.ppm_cells.specs.Link.{link_address};
ghost use Rattle.ppm_cells.specs.JoinOutcome.{outcome_of_both};
ghost use Rattle.ppm_step.specs.Rows.{arrives, is_inline, is_last, join_by_order, join_by};
ghost use Rattle.ppm_step.specs.Rows.{join_outcome, right_begins, right_value};
ghost use Rattle.ppm_step.specs.Facts.{IsAddress, IsRow};

use crate::content::Content;
use crate::row::{Point, Row, Seat, Then, broken, load};
use crate::unwind::take_over;
use ppm_cells::{Cell, Finish, LinkKind, RestartKind, Shape, Side, inline, last, left_frame};

/// By one exchange the branch is first, if the other one wasn't.
pub fn arrive(seat: &Seat, block: u32, side: Side) -> Row
    requires block { IsAddress block }
    ensures value { result ≡ arrives seat.now block side }
    ensures fits { IsRow result }
{
    Row::Exchange {
        cell: Cell::order_word(block),
        old: Content::ANumber(0),
        new: Content::ANumber(u64::from(1 + side.number())),
        then: seat.with_kind(RestartKind::Join { block, side }),
    }
}

/// Whether the strand of this branch is to run the other one next.
fn runs_other(order: u64, side: Side) -> bool
    ensures { result ≡ is_inline order side }
{
    inline(order, side)
}

/// Whether the branch is the last one.
fn comes_last(order: u64, side: Side) -> bool
    ensures { result ≡ is_last order side }
{
    last(order, side)
}

/// By the order word the branch is first, runs the other one next, or is last.
pub fn join_order(seat: &Seat, block: u32, side: Side, order: u64) -> Row
    requires block { IsAddress block }
    ensures value { result ≡ join_by_order seat.now block side order }
    ensures fits { IsRow result }
{
    if order == u64::from(1 + side.number()) {
        Row::Now(seat.with_kind(RestartKind::Pop1))
    } else if runs_other(order, side) {
        load(Point::Offset {
            block,
            bottom: seat.restart.bottom,
        })
    } else if comes_last(order, side) {
        load(Point::JoinLink { block })
    } else {
        broken()
    }
}

/// By the link of the block: the outcomes are looked at.
pub fn join_link(block: u32, link: LinkKind) -> Row
    requires block { IsAddress block }
    requires link { Fit (link_address link) }
    ensures value { result ≡ join_by block link }
    ensures fits { IsRow result }
{
    match link {
        LinkKind::Fork { frame, copy } => load(Point::JoinLeft {
            block,
            to: frame,
            copy,
        }),
        LinkKind::Root | LinkKind::Call { .. } | LinkKind::Branch { .. } => broken(),
    }
}

/// With the outcome of both branches: values are given, or the trap is taken over.
pub fn join_outcome(seat: &Seat, block: u32, to: u32, copy: u32, outcome: Finish) -> Row
    requires block { IsAddress block }
    requires to { IsAddress to }
    requires fits { IsFinish outcome }
    ensures value { result ≡ join_outcome seat.now block to copy outcome }
    ensures fits { IsRow result }
{
    match outcome {
        Finish::Ended => load(Point::Target {
            frame: left_frame(block),
            to,
            copy,
            right_of: Some(block),
        }),
        Finish::Unset
        | Finish::Trapped { .. }
        | Finish::OutOfTurns { .. }
        | Finish::OutOfRoom { .. }
        | Finish::Stopped
        | Finish::Broken { .. } => take_over(seat, to, outcome),
    }
}

/// The frame of the right branch begins with this bottom, if it is there.
pub fn begin_right(shape: &Shape, block: u32, bottom: u32, offset: u64) -> Row
    requires block { IsAddress block }
    ensures value { result ≡ right_begins shape.now block bottom offset }
    ensures fits { IsRow result }
{
    let words = shape.word_count();
    if block >= words || offset >= u64::from(words - block) {
        return broken();
    }
    Row::Now(Then::Begin {
        block,
        frame: block + offset as u32,
        bottom,
    })
}

/// The target of the right branch's frame, if that is there.
pub fn right_target(shape: &Shape, block: u32, to: u32, copy: u32, offset: u64) -> Row
    requires block { IsAddress block }
    requires to { IsAddress to }
    ensures value { result ≡ right_value shape.now block to copy offset }
    ensures fits { IsRow result }
{
    let words = shape.word_count();
    if block >= words || offset >= u64::from(words - block) {
        return broken();
    }
    load(Point::Target {
        frame: block + offset as u32,
        to,
        copy,
        right_of: None,
    })
}
