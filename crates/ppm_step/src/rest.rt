//! What is left of a row: the word step that comes next, and whether it is there.
ghost use Rattle.std.specs.Prelude.{◌≡◌, ◌<◌, ◌≤◌, true};
ghost use Rattle.ppm_cells.specs.Restart.{IsRestart};
ghost use Rattle.ppm_cells.specs.Cells.{address, word_count};
ghost use Rattle.ppm_step.specs.There.{restart_is_there};
ghost use Rattle.ppm_step.specs.Points.{cell_at, reading_at};
ghost use Rattle.ppm_step.specs.Facts.{IsPoint, IsSeat, IsRow, IsThen};
ghost use Rattle.ppm_step.specs.Standings.{forked, begun, point_is_there, then_is_there};
ghost use Rattle.ppm_step.specs.Standings.{row_is_there, installs, wanted_then, wanted_row};
ghost use Rattle.ppm_step.specs.Standings.{WantIsWithin};

use crate::ask::Want;
use crate::content::Reading;
use crate::row::{Point, Row, Seat, Then};
use crate::there::{address, cell_is_there, restart_there, restart_word};
use ppm_cells::{Cell, Restart, RestartKind, Shape};

/// The word that a load is of, where the turn names this victim.
#[inline(always)]
pub fn cell_at(seat: &Seat, victim: u32, point: &Point) -> Cell
    requires restart { IsRestart seat.now.restart }
    requires bottom { 1 ≤ seat.now.restart.bottom }
    requires point { IsPoint point.now }
    ensures { result ≡ cell_at seat.now victim point.now }
{
    let place = seat.place;
    let bottom = seat.restart.bottom;
    match *point {
        Point::Header { frame, copy } => Cell::header_word(frame, copy),
        Point::BumpLink { block } | Point::JoinLink { block } | Point::ClosedLink { block } => {
            Cell::BlockWord { address: block }
        }
        Point::PushOrder { block } | Point::JoinOrder { block, .. } => Cell::order_word(block),
        Point::PushAbove { .. } => Cell::EntryWord {
            place,
            slot: bottom + 1,
        },
        Point::PushBottom { .. } | Point::PopAbove { .. } => Cell::EntryWord {
            place,
            slot: bottom,
        },
        Point::UnwindLink { frame } => Cell::BlockWord { address: frame },
        Point::UnwindOutcome { frame, .. } => Cell::outcome_word(frame),
        Point::Target { frame, .. } => Cell::target_word(frame),
        Point::GivenValue { frame, .. } => Cell::value_word(frame),
        Point::JoinLeft { block, .. } => Cell::left_outcome_word(block),
        Point::JoinRight { block, .. } => Cell::right_outcome_word(block),
        Point::RightFrame { block, .. } | Point::Offset { block, .. } => {
            Cell::offset_word(block)
        }
        Point::PopBelow | Point::PopAgain { .. } => Cell::EntryWord {
            place,
            slot: bottom - 1,
        },
        Point::SeekHolder => Cell::HolderWord { place: victim },
        Point::SeekDead { holder, .. } => Cell::DeadWord {
            processor: holder.processor,
        },
        Point::SeekTop { victim } => Cell::Top { place: victim },
        Point::SeekEntry { victim, slot }
        | Point::TakenEntry { victim, slot, .. }
        | Point::ClosedBottom { victim, slot, .. } => Cell::EntryWord {
            place: victim,
            slot,
        },
        Point::SeekClosed { victim, .. } => Cell::DeadWord { processor: victim },
        Point::StealMessage { .. } | Point::BidMessage { .. } | Point::BidAgain { .. } => {
            Cell::MessageWord { place }
        }
        Point::TakenMessage { by, .. } => Cell::MessageWord { place: by },
        Point::ClosedRestart { victim, .. } => Cell::RestartWord { place: victim },
        Point::BidHolder { victim, .. } => Cell::HolderWord { place: victim },
    }
}

/// How it is read.
pub fn reading_at(point: &Point) -> Reading
    ensures { result ≡ reading_at point.now }
{
    match *point {
        Point::Header { .. }
        | Point::PushOrder { .. }
        | Point::Target { .. }
        | Point::GivenValue { .. }
        | Point::JoinOrder { .. }
        | Point::RightFrame { .. }
        | Point::Offset { .. }
        | Point::SeekDead { .. }
        | Point::SeekTop { .. }
        | Point::SeekClosed { .. } => Reading::AsNumber,
        Point::BumpLink { .. }
        | Point::UnwindLink { .. }
        | Point::JoinLink { .. }
        | Point::ClosedLink { .. } => Reading::AsLink,
        Point::PushAbove { .. }
        | Point::PushBottom { .. }
        | Point::PopBelow
        | Point::PopAgain { .. }
        | Point::PopAbove { .. }
        | Point::SeekEntry { .. }
        | Point::StealMessage { .. }
        | Point::TakenMessage { .. }
        | Point::TakenEntry { .. }
        | Point::ClosedBottom { .. } => Reading::AsEntry,
        Point::UnwindOutcome { .. } | Point::JoinLeft { .. } | Point::JoinRight { .. } => {
            Reading::AsFinish
        }
        Point::SeekHolder
        | Point::BidMessage { .. }
        | Point::BidAgain { .. }
        | Point::BidHolder { .. } => Reading::AsHolder,
        Point::ClosedRestart { .. } => Reading::AsRestart,
    }
}

/// Whether the word of a load is there.
#[inline(always)]
fn point_there(shape: &Shape, seat: &Seat, point: &Point) -> bool
    requires seat { IsSeat shape.now seat.now }
    requires point { IsPoint point.now }
    ensures { result ≡ point_is_there shape.now seat.now point.now }
{
    match *point {
        Point::SeekHolder => true,
        _ => cell_is_there(shape, cell_at(seat, 0, point)),
    }
}

/// The restart of a fork that begins to be pushed.
pub fn forked(seat: &Seat, block: u32) -> Restart
    ensures { result ≡ forked seat.now block }
{
    Restart {
        kind: RestartKind::Push1 { block },
        bottom: seat.restart.bottom,
    }
}

/// The restart of a frame that begins.
pub fn begun(frame: u32, bottom: u32) -> Restart
    ensures { result ≡ begun frame bottom }
{
    Restart {
        kind: RestartKind::Run { frame, copy: 0 },
        bottom,
    }
}

/// Whether what a row asks next is there.
#[inline(always)]
pub fn then_there(shape: &Shape, seat: &Seat, next: &Then) -> bool
    requires seat { IsSeat shape.now seat.now }
    requires next { IsThen next.now }
    ensures { result ≡ then_is_there shape.now seat.now next.now }
{
    match next {
        Then::Load(point) => point_there(shape, seat, point),
        Then::Install(restart) => restart_there(shape, *restart),
        Then::Fork { block } => restart_there(shape, forked(seat, *block)),
        Then::Begin { frame, bottom, .. } => restart_there(shape, begun(*frame, *bottom)),
        Then::Move { place } => *place < shape.processors,
        Then::Enter { .. } | Then::Again | Then::Broken => false,
    }
}

/// The store of a restart word at the seat's place.
fn install(shape: &Shape, seat: &Seat, restart: Restart) -> Want
    requires seat { IsSeat shape.now seat.now }
    requires restart { restart_is_there shape.now restart ≡ true }
    ensures value { result ≡ installs shape.now seat.now restart }
    ensures within { WantIsWithin shape.now result }
{
    let cell = Cell::RestartWord { place: seat.place };
    Want::Stores(address(shape, cell), restart_word(shape, restart))
}

/// The word step of what follows.
#[inline(always)]
fn want_then(shape: &Shape, seat: &Seat, victim: u32, next: &Then) -> Want
    requires seat { IsSeat shape.now seat.now }
    requires victim { victim < shape.now.processors }
    requires next { IsThen next.now }
    requires there { then_is_there shape.now seat.now next.now ≡ true }
    ensures value { result ≡ wanted_then shape.now seat.now victim next.now }
    ensures within { WantIsWithin shape.now result }
{
    match next {
        Then::Load(point) => Want::Loads(load_address(shape, seat, victim, point)),
        Then::Install(restart) => install(shape, seat, *restart),
        Then::Fork { block } => install(shape, seat, forked(seat, *block)),
        Then::Begin { frame, bottom, .. } => install(shape, seat, begun(*frame, *bottom)),
        Then::Move { place } => {
            let cell = Cell::CarryWord {
                processor: seat.own,
            };
            Want::Stores(address(shape, cell), u64::from(*place))
        }
        Then::Enter { .. } | Then::Again | Then::Broken => Want::Nothing,
    }
}

/// The address of a load.
#[inline(always)]
fn load_address(shape: &Shape, seat: &Seat, victim: u32, point: &Point) -> u32
    requires seat { IsSeat shape.now seat.now }
    requires victim { victim < shape.now.processors }
    requires point { IsPoint point.now }
    requires there { point_is_there shape.now seat.now point.now ≡ true }
    ensures value { result ≡ address shape.now (cell_at seat.now victim point.now) }
    ensures within { result < word_count shape.now }
{
    match *point {
        Point::SeekHolder => address(shape, Cell::HolderWord { place: victim }),
        _ => address(shape, cell_at(seat, victim, point)),
    }
}

/// The word step that comes next in a row.
#[inline(never)]
pub fn want_row(shape: &Shape, seat: &Seat, victim: u32, row: &Row) -> Want
    requires seat { IsSeat shape.now seat.now }
    requires victim { victim < shape.now.processors }
    requires row { IsRow row.now }
    requires there { row_is_there shape.now seat.now row.now ≡ true }
    ensures value { result ≡ wanted_row shape.now seat.now victim row.now }
    ensures within { WantIsWithin shape.now result }
{
    match row {
        Row::Now(next) => want_then(shape, seat, victim, next),
        Row::Store { cell, content, .. } => Want::Stores(address(shape, *cell), content.word()),
        Row::Exchange { cell, old, new, .. } => {
            Want::Exchanges(address(shape, *cell), old.word(), new.word())
        }
    }
}
