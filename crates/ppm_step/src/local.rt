//! Where a processor stands, the word step that comes next, and where it stands after it.
ghost use Rattle.std.specs.Prelude.{◌≡◌, true, Some};
ghost use Rattle.ppm_step.specs.State.{step_of};

use crate::ask::Want;
use crate::content::Content;
use crate::found::found_at;
use crate::going::Going;
use crate::rest::{begun, forked, reading_at, want_row};
use crate::row::{Point, Row, Seat, Then};
use crate::running::{Running, Stage};
use crate::standing::installed;
use crate::there::address;
use crate::turn::Next;
use ppm_cells::{Cell, Finish, Restart, RestartKind, Shape, UNKNOWN_PLACE, header_at};
use ppm_code::{Code, End, Step};

/// Where a processor stands.
#[derive(Clone, Copy, Debug, PartialEq, Eq)]
pub enum Stand {
    /// It has lost its registers, and does not know its place.
    Lost,
    /// It knows its place.
    Placed {
        place: u32,
    },
    /// It knows the restart word of its place; `None` where that is broken.
    At {
        place: u32,
        restart: Option<Restart>,
    },
    /// It is within a row.
    Within {
        seat: Seat,
        row: Row,
    },
    /// It is within a capsule of a frame.
    Runs(Running),
    /// It has met broken words at its place, `UNKNOWN_PLACE` where that isn't known.
    Broken {
        place: u32,
    },
    /// It takes no step any more.
    Done,
}

/// A processor: its number, from 0, where it stands, and the registers of a capsule under way.
#[derive(Debug, Drop)]
pub struct Local {
    pub own: u32,
    pub stand: Stand,
    pub registers: [u64; 64],
}

impl Local {
    ghost use Rattle.std.specs.Prelude.{◌≡◌, ◌<◌, ℕ, true, Some, slice_get, IfSome};
    ghost use Rattle.ppm_cells.specs.Restart.{IsRestart};
    ghost use Rattle.ppm_cells.specs.declared.shape.Shape.{Shape};
    ghost use Rattle.ppm_code.specs.declared.code.CodeParts.{CodeParts};
    ghost use Rattle.ppm_cells.specs.Restart.{restart_of};
    ghost use Rattle.ppm_step.specs.Facts.{IsPoint, IsRow, IsSeat, IsThen};
    ghost use Rattle.ppm_step.specs.Locals.{standing_of, went_if_running, IsLocal};
    ghost use Rattle.ppm_step.specs.Standings.{IsLost, IsAt, IsBroken, IsDone, wanted, went};
    ghost use Rattle.ppm_step.specs.Standings.{enters, begins, stands, stands_then, then_is_there};
    ghost use Rattle.ppm_step.specs.Standings.{went_then, went_rest, WantIsWithin};
    ghost use Rattle.ppm_step.specs.Contents.{content_of};
    ghost use Rattle.ppm_step.specs.Points.{reading_at};
    ghost use Rattle.ppm_step.specs.Rows.{found_at, row_of};
    ghost use Rattle.ppm_step.specs.Stages.{IsUnderWay, rest_at};
    ghost use Rattle.ppm_step.specs.State.{next_of};
    ghost use Rattle.ppm_step.specs.declared.row.Point.TheVariants.{Header};
    ghost use Rattle.ppm_step.specs.declared.row.Row.TheVariants.{Now};
    ghost use Rattle.ppm_step.specs.declared.row.Then.TheVariants.{Load};
    ghost use Rattle.ppm_step.specs.Told.{place_of};

    /// A processor that has lost its registers, as at the beginning.
    pub fn lost(own: u32) -> Local
        ensures own { result.own ≡ own }
        ensures stands { (s : Shape) (code : CodeParts) → standing_of s code result ≡ IsLost }
        ensures holds { (s : Shape) (code : CodeParts) → own < s.processors
            → IsLocal s code result }
    {
        Local {
            own,
            stand: Stand::Lost,
            registers: [0; 64],
        }
    }

    /// It loses its registers.
    pub fn fault(&mut self)
        ensures own { self.new.own ≡ self.old.own }
        ensures stands { (s : Shape) (code : CodeParts) → standing_of s code self.new ≡ IsLost }
        ensures holds { (s : Shape) (code : CodeParts) → IsLocal s code self.old
            → IsLocal s code self.new }
    {
        self.stand = Stand::Lost;
    }

    /// It takes no step any more.
    #[inline(never)]
    pub fn die(&mut self)
        ensures own { self.new.own ≡ self.old.own }
        ensures stands { (s : Shape) (code : CodeParts) → standing_of s code self.new ≡ IsDone }
        ensures holds { (s : Shape) (code : CodeParts) → IsLocal s code self.old
            → IsLocal s code self.new }
    {
        self.stand = Stand::Done;
    }

    /// What its coming step is.
    #[inline(always)]
    pub fn next(&self) -> Next
        ensures { (s : Shape) (code : CodeParts) → result ≡ next_of (standing_of s code self.now) }
    {
        match self.stand {
            Stand::Lost | Stand::Placed { .. } | Stand::Broken { .. } => Next::Look,
            Stand::At { restart, .. } => match restart {
                Some(
                    Restart {
                        kind: RestartKind::Seek,
                        ..
                    },
                ) => Next::Seek,
                Some(_) | None => Next::Look,
            },
            Stand::Within { seat, .. } => step_of(seat.restart.kind),
            Stand::Runs(_) => Next::Work,
            Stand::Done => Next::Done,
        }
    }

    /// The place that it carries; `UNKNOWN_PLACE` where it does not know it.
    #[inline(always)]
    pub fn place(&self) -> u32
        ensures { (s : Shape) (code : CodeParts) → result ≡ place_of (standing_of s code self.now) }
    {
        match self.stand {
            Stand::Lost | Stand::Done => UNKNOWN_PLACE,
            Stand::Placed { place } | Stand::At { place, .. } | Stand::Broken { place } => place,
            Stand::Within { seat, .. } => seat.place,
            Stand::Runs(running) => running.seat.place,
        }
    }

    /// The word step that comes next, where the turn names this victim.
    #[inline(always)]
    pub fn want(&self, shape: &Shape, code: &Code, victim: u32) -> Want
        requires local { IsLocal shape.now code.now self.now }
        requires victim { victim < shape.now.processors }
        ensures value { result
            ≡ wanted shape.now self.now.own victim (standing_of shape.now code.now self.now) }
        ensures within { WantIsWithin shape.now result }
    {
        match &self.stand {
            Stand::Lost => Want::Loads(address(
                shape,
                Cell::CarryWord {
                    processor: self.own,
                },
            )),
            Stand::Placed { place } => {
                Want::Loads(address(shape, Cell::RestartWord { place: *place }))
            }
            Stand::At { .. } => Want::Loads(address(shape, Cell::FinishWord)),
            Stand::Within {
                row: Row::Now(Then::Load(Point::Header { frame, copy })),
                ..
            } => Want::Loads(header_at(*frame, *copy)),
            Stand::Within { seat, row } => want_row(shape, seat, victim, row),
            Stand::Runs(running) => running.want(shape, code, &self.registers),
            Stand::Broken { place } => Want::Exchanges(
                address(shape, Cell::FinishWord),
                0,
                Finish::Broken { place: *place }.pack(),
            ),
            Stand::Done => Want::Nothing,
        }
    }

    /// Goes on with what the load of a row has found.
    #[inline(never)]
    fn observe_load(
        &mut self,
        shape: &Shape,
        code: &Code,
        victim: u32,
        found: u64,
        seat: Seat,
        point: &Point,
    )
        requires seat { IsSeat shape.now seat }
        requires own { seat.own ≡ self.old.own }
        requires carrier { self.old.own < shape.now.processors }
        requires point { IsPoint point.now }
        ensures stands { standing_of shape.now code.now self.new
            ≡ stands shape.now code.now seat (found_at shape.now seat victim point.now (content_of (reading_at point.now) found)) }
        ensures holds { IsLocal shape.now code.now self.new }
        ensures own_stays { self.new.own ≡ self.old.own }
    {
        let content = Content::of(reading_at(point), found);
        let row = found_at(shape, &seat, victim, point, content);
        self.stand_with(shape, code, seat, &row);
    }

    /// Goes on with what a row has found, whose next step this was.
    fn observe_then(
        &mut self,
        shape: &Shape,
        code: &Code,
        victim: u32,
        found: u64,
        seat: Seat,
        next: &Then,
    )
        requires seat { IsSeat shape.now seat }
        requires own { seat.own ≡ self.old.own }
        requires carrier { self.old.own < shape.now.processors }
        requires next { IsThen next.now }
        requires there { then_is_there shape.now seat next.now ≡ true }
        ensures stands { standing_of shape.now code.now self.new
            ≡ went_then shape.now code.now seat victim found next.now }
        ensures holds { IsLocal shape.now code.now self.new }
        ensures own_stays { self.new.own ≡ self.old.own }
    {
        match next {
            Then::Load(point) => self.observe_load(shape, code, victim, found, seat, point),
            Then::Install(restart) => self.stand = installed(shape, seat, *restart),
            Then::Fork { block } => self.stand = installed(shape, seat, forked(&seat, *block)),
            Then::Begin { frame, bottom, .. } => {
                self.stand = installed(shape, seat, begun(*frame, *bottom));
            }
            Then::Move { place } => self.stand = Stand::Placed { place: *place },
            Then::Enter { .. } | Then::Again | Then::Broken => {
                self.stand_then(shape, code, seat, next);
            }
        }
    }

    /// Goes on with what a step of this capsule has found.
    #[inline(always)]
    fn observe_run(&mut self, shape: &Shape, code: &Code, running: Running, found: u64)
        requires running { IsUnderWay shape.now code.now running self.old.registers }
        requires own { running.seat.own ≡ self.old.own }
        requires carrier { self.old.own < shape.now.processors }
        ensures stands { standing_of shape.now code.now self.new
            ≡ went_rest shape.now running.seat found (rest_at shape.now code.now running running.stage self.old.registers) }
        ensures holds { IsLocal shape.now code.now self.new }
        ensures own_stays { self.new.own ≡ self.old.own }
    {
        let place = running.seat.place;
        let mut ran = running;
        match ran.observe(shape, code, &mut self.registers, found) {
            Going::Went(true) => self.stand = Stand::Runs(ran),
            Going::Went(false) => self.meet_broken(place),
            Going::Installed(restart) => {
                self.stand = Stand::At {
                    place,
                    restart: Some(restart),
                };
            }
        }
    }

    /// Goes on with what a step of a capsule has found.
    #[inline(never)]
    fn observe_running(&mut self, shape: &Shape, code: &Code, found: u64)
        requires local { IsLocal shape.now code.now self.old }
        ensures stands { standing_of shape.now code.now self.new
            ≡ went_if_running shape.now code.now self.old found }
        ensures holds { IsLocal shape.now code.now self.new }
        ensures own_stays { self.new.own ≡ self.old.own }
    {
        if let Stand::Runs(running) = self.stand {
            self.observe_run(shape, code, running, found);
        }
    }

    /// Goes on with what any word step found.
    #[inline(never)]
    fn observe_any(&mut self, shape: &Shape, code: &Code, victim: u32, found: u64)
        requires local { IsLocal shape.now code.now self.old }
        ensures stands { standing_of shape.now code.now self.new
            ≡ went shape.now code.now self.old.own victim found (standing_of shape.now code.now self.old) }
        ensures holds { IsLocal shape.now code.now self.new }
        ensures own { self.new.own ≡ self.old.own }
    {
        match self.stand {
            Stand::Lost => if found < u64::from(shape.processors) {
                self.stand = Stand::Placed {
                    place: found as u32,
                };
            } else {
                self.meet_broken(UNKNOWN_PLACE);
            },
            Stand::Placed { place } => self.read_restart(place, found),
            Stand::At { place, restart } => if found == 0 {
                self.begin(shape, code, place, restart);
            } else {
                self.die();
            },
            Stand::Within {
                seat,
                row: Row::Now(next),
            } => self.observe_then(shape, code, victim, found, seat, &next),
            Stand::Within {
                seat,
                row: Row::Store { then, .. },
            } => self.stand_then(shape, code, seat, &then),
            Stand::Within {
                seat,
                row: Row::Exchange { then, .. },
            } => self.stand_then(shape, code, seat, &then),
            Stand::Runs(_) => self.observe_running(shape, code, found),
            Stand::Broken { .. } | Stand::Done => self.die(),
        }
    }

    /// Goes on with what the word step found; after a store or an exchange that is not looked at.
    #[inline(always)]
    pub fn observe(&mut self, shape: &Shape, code: &Code, victim: u32, found: u64)
        requires local { IsLocal shape.now code.now self.old }
        ensures stands { standing_of shape.now code.now self.new
            ≡ went shape.now code.now self.old.own victim found (standing_of shape.now code.now self.old) }
        ensures holds { IsLocal shape.now code.now self.new }
        ensures own { self.new.own ≡ self.old.own }
    {
        // The steps of a capsule that goes on with another one are done here, without a copy of
        // what is left of a row.
        match self.stand {
            Stand::At { place, restart } => if found == 0 {
                self.begin(shape, code, place, restart);
            } else {
                self.die();
            },
            Stand::Within {
                seat,
                row: Row::Now(Then::Load(Point::Header { .. })),
            } => self.enter(shape, code, seat, found),
            Stand::Within {
                seat,
                row: Row::Now(Then::Load(point)),
            } => self.observe_load(shape, code, victim, found, seat, &point),
            Stand::Within {
                seat,
                row: Row::Now(Then::Install(restart)),
            } => self.stand = installed(shape, seat, restart),
            Stand::Runs(running) => match running.stage {
                Stage::Ending(End::Next { .. }, _) => self.observe_run(shape, code, running, found),
                Stage::Before(Step::Loads(..)) => self.observe_run(shape, code, running, found),
                Stage::Before(Step::Stores(..)) => self.observe_run(shape, code, running, found),
                Stage::Before(Step::Asks(_)) | Stage::Ending(..) | Stage::Filled => {
                    self.observe_running(shape, code, found);
                }
            },
            Stand::Lost
            | Stand::Placed { .. }
            | Stand::Within { .. }
            | Stand::Broken { .. }
            | Stand::Done => self.observe_any(shape, code, victim, found),
        }
    }
}

/// Whether the steps of a capsule are work.
fn step_of(kind: RestartKind) -> Next
    ensures { result ≡ step_of kind }
{
    match kind {
        RestartKind::Run { .. }
        | RestartKind::Bump { .. }
        | RestartKind::Push1 { .. }
        | RestartKind::Push2 { .. }
        | RestartKind::Unwind { .. }
        | RestartKind::Arrive { .. }
        | RestartKind::Join { .. }
        | RestartKind::Pop1
        | RestartKind::Pop2 { .. } => Next::Work,
        RestartKind::Seek
        | RestartKind::Steal { .. }
        | RestartKind::Check { .. }
        | RestartKind::Take { .. }
        | RestartKind::Take2 { .. } => Next::Look,
    }
}
