//! The word of a turn, by where the processor stands.
ghost use Rattle.std.specs.Prelude.{◌≡◌};
ghost use Rattle.ppm_cells.specs.declared.shape.Shape.{Shape};
ghost use Rattle.ppm_code.specs.declared.code.CodeParts.{CodeParts};
ghost use Rattle.ppm_lines.specs.Parts.{part_sought as sought_by, part_by as by_stand};
ghost use Rattle.ppm_lines.specs.Parts.{part_of_cell as of_cell, part_at as at_address};
ghost use Rattle.ppm_lines.specs.Parts.{part_asked as asked_by, part_of as of_turn};
ghost use Rattle.ppm_lines.specs.Parts.{coming as coming_of, victim_of as victim_by};
ghost use Rattle.ppm_step.specs.Among.{IsTurnAmong};
ghost use Rattle.ppm_step.specs.Locals.{IsLocal, standing_of};
ghost use Rattle.ppm_step.specs.State.{is_step as is_step_by, seeks_holder as seeks_by};
ghost use Rattle.ppm_step.specs.declared.row.Row.TheVariants.{Now};
ghost use Rattle.ppm_step.specs.declared.row.Then.TheVariants.{Load};

use crate::part::{ForkPart, Part, part_in};
use crate::scene::Scene;
use ppm_cells::Cell;
use ppm_naming::addressed;
use ppm_step::{Act, Local, Point, Row, Stand, Then, Turn, Want};

/// The word that a load is of, where it names its block itself.
fn point_sought(point: &Point) -> Option<Part>
    ensures { result ≡ sought_by (Now (Load point.now)) }
{
    match point {
        Point::Offset { block, .. } => Some(Part::InFork {
            block: *block,
            part: ForkPart::RightOffset,
        }),
        Point::ClosedLink { block } => Some(Part::LinkAt { at: *block }),
        Point::Header { .. }
        | Point::BumpLink { .. }
        | Point::PushOrder { .. }
        | Point::PushAbove { .. }
        | Point::PushBottom { .. }
        | Point::UnwindLink { .. }
        | Point::UnwindOutcome { .. }
        | Point::Target { .. }
        | Point::GivenValue { .. }
        | Point::JoinOrder { .. }
        | Point::JoinLink { .. }
        | Point::JoinLeft { .. }
        | Point::JoinRight { .. }
        | Point::RightFrame { .. }
        | Point::PopBelow
        | Point::PopAgain { .. }
        | Point::PopAbove { .. }
        | Point::SeekHolder
        | Point::SeekDead { .. }
        | Point::SeekTop { .. }
        | Point::SeekEntry { .. }
        | Point::SeekClosed { .. }
        | Point::StealMessage { .. }
        | Point::TakenMessage { .. }
        | Point::TakenEntry { .. }
        | Point::ClosedRestart { .. }
        | Point::ClosedBottom { .. }
        | Point::BidMessage { .. }
        | Point::BidAgain { .. }
        | Point::BidHolder { .. } => None,
    }
}

/// The word that what follows is of.
fn then_sought(next: &Then) -> Option<Part>
    ensures { result ≡ sought_by (Now next.now) }
{
    match next {
        Then::Load(point) => point_sought(point),
        Then::Install(_)
        | Then::Fork { .. }
        | Then::Begin { .. }
        | Then::Move { .. }
        | Then::Enter { .. }
        | Then::Again
        | Then::Broken => None,
    }
}

/// The word that a row is to load as a thief.
fn part_sought(row: &Row) -> Option<Part>
    ensures { result ≡ sought_by row.now }
{
    match row {
        Row::Now(next) => then_sought(next),
        Row::Store { .. } | Row::Exchange { .. } => None,
    }
}

/// A word of a pool, by where the processor stands.
fn part_by(scene: &Scene, at: u32, local: &Local) -> Part
    requires { IsLocal scene.now.shape scene.now.code local.now }
    ensures { result
        ≡ by_stand scene.now at (standing_of scene.now.shape scene.now.code local.now) }
{
    match &local.stand {
        Stand::Within { seat, row } => match part_sought(row) {
            Some(part) => part,
            None => part_in(scene, seat.place, at, seat.restart.kind),
        },
        Stand::Runs(running) => part_in(scene, running.seat.place, at, running.seat.restart.kind),
        Stand::Lost
        | Stand::Placed { .. }
        | Stand::At { .. }
        | Stand::Broken { .. }
        | Stand::Done => Part::Elsewhere { at },
    }
}

/// A word of a pool, or another cell.
fn part_of_cell(scene: &Scene, local: &Local, cell: Cell) -> Part
    requires { IsLocal scene.now.shape scene.now.code local.now }
    ensures { result
        ≡ of_cell scene.now (standing_of scene.now.shape scene.now.code local.now) cell }
{
    match cell {
        Cell::BlockWord { address } => part_by(scene, address, local),
        Cell::FinishWord
        | Cell::CarryWord { .. }
        | Cell::DeadWord { .. }
        | Cell::RestartWord { .. }
        | Cell::MessageWord { .. }
        | Cell::HolderWord { .. }
        | Cell::Top { .. }
        | Cell::RoomCounter { .. }
        | Cell::EntryWord { .. }
        | Cell::ArrayWord { .. } => Part::OfMachine(cell),
    }
}

/// The word of a word step.
pub(crate) fn part_asked(scene: &Scene, local: &Local, want: Want) -> Part
    requires { IsLocal scene.now.shape scene.now.code local.now }
    ensures { result
        ≡ asked_by scene.now (standing_of scene.now.shape scene.now.code local.now) want }
{
    match want {
        Want::Loads(at) | Want::Stores(at, _) | Want::Exchanges(at, _, _) => {
            part_of_cell(scene, local, addressed(scene.shape(), at))
        }
        Want::Nothing => Part::NoWord,
    }
}

/// The victim that an act names.
fn victim_of(act: Act) -> u32
    ensures { result ≡ victim_by act }
{
    match act {
        Act::Step { victim } => victim,
        Act::Soft | Act::Hard | Act::Quit(_) => 0,
    }
}

/// The word step that comes next, or in whose place a fault comes.
pub(crate) fn coming(scene: &Scene, local: &Local, turn: Turn) -> Want
    requires local { IsLocal scene.now.shape scene.now.code local.now }
    requires own { local.now.own ≡ turn.processor }
    requires among { IsTurnAmong scene.now.shape.processors turn }
    ensures { result
        ≡ coming_of scene.now turn (standing_of scene.now.shape scene.now.code local.now) }
{
    local.want(scene.shape(), scene.code(), victim_of(turn.act))
}

/// Whether an act is a step.
fn is_step(act: Act) -> bool
    ensures { result ≡ is_step_by act }
{
    match act {
        Act::Step { .. } => true,
        Act::Soft | Act::Hard | Act::Quit(_) => false,
    }
}

/// Whether the coming step is the load of a holder word as the processor seeks work.
fn seeks_holder(local: &Local) -> bool
    ensures { (s : Shape) (code : CodeParts) → result ≡ seeks_by (standing_of s code local.now) }
{
    match local.stand {
        Stand::Within {
            row: Row::Now(Then::Load(Point::SeekHolder)),
            ..
        } => true,
        Stand::Lost
        | Stand::Placed { .. }
        | Stand::At { .. }
        | Stand::Within { .. }
        | Stand::Runs(_)
        | Stand::Broken { .. }
        | Stand::Done => false,
    }
}

/// The word of a turn: that of its word step, or of the one in whose place a fault comes.
pub(crate) fn part_of(scene: &Scene, local: &Local, turn: Turn) -> Part
    requires local { IsLocal scene.now.shape scene.now.code local.now }
    requires own { local.now.own ≡ turn.processor }
    requires among { IsTurnAmong scene.now.shape.processors turn }
    ensures { result
        ≡ of_turn scene.now turn (standing_of scene.now.shape scene.now.code local.now) }
{
    let want = coming(scene, local, turn);
    if is_step(turn.act) {
        return part_asked(scene, local, want);
    }
    if seeks_holder(local) {
        return Part::SomeHolder;
    }
    part_asked(scene, local, want)
}
