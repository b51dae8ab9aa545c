//! Where a processor comes to stand.
ghost use Rattle.std.specs.Prelude.{◌≡◌, ◌<◌, true, Some, slice_get, IfSome, MatchOption};
ghost use Rattle.ppm_cells.specs.Restart.{IsRestart};
ghost use Rattle.ppm_step.specs.Facts.{IsSeat};
ghost use Rattle.ppm_step.specs.Locals.{HasEntered, HasNoHeader, IsHeaderOf};
ghost use Rattle.ppm_step.specs.Stages.{IsUnderWay};
ghost use Rattle.ppm_step.specs.Standings.{enters};
ghost use Rattle.ppm_step.specs.There.{restart_is_there};
ghost use Rattle.ppm_step.specs.declared.local.Stand.TheVariants.{At};

use crate::found::row_of;
use crate::frame::Home;
use crate::local::{Local, Stand};
use crate::rest::then_there;
use crate::row::{Point, Row, Seat, Then};
use crate::running::{Running, Stage};
use crate::there::{cell_is_there, restart_there};
use ppm_cells::{Restart, RestartKind, Shape, header_at};
use ppm_code::Code;

impl Local {
    ghost use Rattle.std.specs.Prelude.{◌≡◌, ◌<◌, ℕ, true, Some, slice_get, IfSome};
    ghost use Rattle.ppm_cells.specs.Restart.{IsRestart};
    ghost use Rattle.ppm_cells.specs.declared.shape.Shape.{Shape};
    ghost use Rattle.ppm_code.specs.declared.code.CodeParts.{CodeParts};
    ghost use Rattle.ppm_cells.specs.Restart.{restart_of};
    ghost use Rattle.ppm_step.specs.Facts.{IsPoint, IsRow, IsSeat, IsThen};
    ghost use Rattle.ppm_step.specs.Locals.{standing_of, went_if_running, IsLocal};
    ghost use Rattle.ppm_step.specs.Standings.{IsLost, IsAt, IsBroken, IsDone, wanted, went};
    ghost use Rattle.ppm_step.specs.Standings.{enters, begins, stands, stands_then, then_is_there};
    ghost use Rattle.ppm_step.specs.Standings.{went_then, went_rest, WantIsWithin};
    ghost use Rattle.ppm_step.specs.Rows.{row_of};
    ghost use Rattle.ppm_step.specs.Stages.{IsUnderWay};
    ghost use Rattle.ppm_step.specs.State.{next_of};
    ghost use Rattle.ppm_step.specs.declared.row.Point.TheVariants.{Header};
    ghost use Rattle.ppm_step.specs.declared.row.Row.TheVariants.{Now};
    ghost use Rattle.ppm_step.specs.declared.row.Then.TheVariants.{Load};
    ghost use Rattle.ppm_step.specs.Told.{place_of};

    /// It has met broken words at a place, `UNKNOWN_PLACE` where that isn't known.
    #[inline(never)]
    pub(crate) fn meet_broken(&mut self, place: u32)
        requires { place < 65 }
        ensures stands { (s : Shape) (code : CodeParts)
            → standing_of s code self.new ≡ IsBroken place }
        ensures holds { (s : Shape) (code : CodeParts) → self.old.own < s.processors
            → IsLocal s code self.new }
        ensures own_stays { self.new.own ≡ self.old.own }
    {
        self.stand = Stand::Broken { place };
    }

    /// It has read the restart word of its place.
    #[inline(never)]
    pub(crate) fn read_restart(&mut self, place: u32, found: u64)
        ensures stands { (s : Shape) (code : CodeParts)
            → standing_of s code self.new ≡ IsAt place (restart_of found) }
        ensures holds { (s : Shape) (code : CodeParts) → self.old.own < s.processors
            → place < s.processors → IsLocal s code self.new }
        ensures own_stays { self.new.own ≡ self.old.own }
    {
        self.stand = Stand::At {
            place,
            restart: Restart::unpack(found),
        };
    }

    /// Enters the capsule with a number, if that is in the code.
    #[inline(always)]
    pub(crate) fn enter(&mut self, shape: &Shape, code: &Code, seat: Seat, number: u64)
        requires seat { IsSeat shape.now seat }
        requires own { seat.own ≡ self.old.own }
        requires carrier { self.old.own < shape.now.processors }
        ensures stands { standing_of shape.now code.now self.new
            ≡ enters shape.now code.now seat seat.restart.kind (slice_get code.now.capsules number) }
        ensures holds { IsLocal shape.now code.now self.new }
        ensures own_stays { self.new.own ≡ self.old.own }
    {
        let place = seat.place;
        match entered(shape, code, seat, number, &mut self.registers) {
            Some(running) => self.stand = Stand::Runs(running),
            None => self.meet_broken(place),
        }
    }

    /// Does what `enter` does, as a function of its own, for callers that seldom enter one.
    #[inline(never)]
    fn enter_apart(&mut self, shape: &Shape, code: &Code, seat: Seat, number: u64)
        requires seat { IsSeat shape.now seat }
        requires own { seat.own ≡ self.old.own }
        requires carrier { self.old.own < shape.now.processors }
        ensures stands { standing_of shape.now code.now self.new
            ≡ enters shape.now code.now seat seat.restart.kind (slice_get code.now.capsules number) }
        ensures holds { IsLocal shape.now code.now self.new }
        ensures own_stays { self.new.own ≡ self.old.own }
    {
        self.enter(shape, code, seat, number);
    }

    /// Stands with this next in its row.
    #[inline(always)]
    pub(crate) fn stand_then(&mut self, shape: &Shape, code: &Code, seat: Seat, next: &Then)
        requires seat { IsSeat shape.now seat }
        requires own { seat.own ≡ self.old.own }
        requires carrier { self.old.own < shape.now.processors }
        requires next { IsThen next.now }
        ensures stands { standing_of shape.now code.now self.new
            ≡ stands_then shape.now code.now seat next.now }
        ensures holds { IsLocal shape.now code.now self.new }
        ensures own_stays { self.new.own ≡ self.old.own }
    {
        match next {
            Then::Enter { capsule } => self.enter_apart(shape, code, seat, *capsule),
            Then::Again => self.stand = at(seat, seat.restart),
            Then::Load(_)
            | Then::Install(_)
            | Then::Fork { .. }
            | Then::Begin { .. }
            | Then::Move { .. }
            | Then::Broken => if then_there(shape, &seat, next) {
                self.stand = Stand::Within {
                    seat,
                    row: Row::Now(*next),
                };
            } else {
                self.meet_broken(seat.place);
            },
        }
    }

    /// Stands with this left of its row.
    #[inline(always)]
    pub(crate) fn stand_with(&mut self, shape: &Shape, code: &Code, seat: Seat, row: &Row)
        requires seat { IsSeat shape.now seat }
        requires own { seat.own ≡ self.old.own }
        requires carrier { self.old.own < shape.now.processors }
        requires row { IsRow row.now }
        ensures stands { standing_of shape.now code.now self.new
            ≡ stands shape.now code.now seat row.now }
        ensures holds { IsLocal shape.now code.now self.new }
        ensures own_stays { self.new.own ≡ self.old.own }
    {
        match row {
            Row::Now(next) => self.stand_then(shape, code, seat, next),
            Row::Store { cell, .. } | Row::Exchange { cell, .. } => {
                if cell_is_there(shape, *cell) {
                    self.stand = Stand::Within { seat, row: *row };
                } else {
                    self.meet_broken(seat.place);
                }
            }
        }
    }

    /// Stands before the load of the header of a frame.
    #[inline(always)]
    pub(crate) fn stand_at_header(&mut self, shape: &Shape, seat: Seat, frame: u32, copy: u32)
        requires seat { IsSeat shape.now seat }
        requires own { seat.own ≡ self.old.own }
        requires carrier { self.old.own < shape.now.processors }
        requires point { IsPoint (Header frame copy) }
        ensures stands { (code : CodeParts)
            → standing_of shape.now code self.new
            ≡ stands shape.now code seat (Now (Load (Header frame copy))) }
        ensures holds { (code : CodeParts) → IsLocal shape.now code self.new }
        ensures own_stays { self.new.own ≡ self.old.own }
    {
        if header_at(frame, copy) >= shape.word_count() {
            self.meet_broken(seat.place);
            return;
        }
        self.stand = Stand::Within {
            seat,
            row: Row::Now(Then::Load(Point::Header { frame, copy })),
        };
    }

    /// Begins the row of a seat.
    #[inline(never)]
    pub(crate) fn begin_row(&mut self, shape: &Shape, code: &Code, seat: Seat)
        requires seat { IsSeat shape.now seat }
        requires own { seat.own ≡ self.old.own }
        requires carrier { self.old.own < shape.now.processors }
        ensures stands { standing_of shape.now code.now self.new
            ≡ stands shape.now code.now seat (row_of shape.now seat seat.restart.kind) }
        ensures holds { IsLocal shape.now code.now self.new }
        ensures own_stays { self.new.own ≡ self.old.own }
    {
        let row = row_of(shape, &seat);
        self.stand_with(shape, code, seat, &row);
    }

    /// Begins the row of its restart word.
    #[inline(always)]
    pub(crate) fn begin(&mut self, shape: &Shape, code: &Code, place: u32, restart: Option<Restart>)
        requires place { place < shape.now.processors }
        requires restart { IfSome restart IsRestart }
        requires carrier { self.old.own < shape.now.processors }
        ensures stands { standing_of shape.now code.now self.new
            ≡ begins shape.now code.now self.old.own place restart }
        ensures holds { IsLocal shape.now code.now self.new }
        ensures own_stays { self.new.own ≡ self.old.own }
    {
        let Some(restart) = restart else {
            self.meet_broken(place);
            return;
        };
        if !restart_there(shape, restart) {
            self.meet_broken(place);
            return;
        }
        let seat = Seat {
            own: self.own,
            place,
            restart,
        };
        match restart.kind {
            RestartKind::Run { frame, copy } => self.stand_at_header(shape, seat, frame, copy),
            RestartKind::Bump { .. }
            | RestartKind::Push1 { .. }
            | RestartKind::Push2 { .. }
            | RestartKind::Unwind { .. }
            | RestartKind::Arrive { .. }
            | RestartKind::Join { .. }
            | RestartKind::Pop1
            | RestartKind::Pop2 { .. }
            | RestartKind::Seek
            | RestartKind::Steal { .. }
            | RestartKind::Check { .. }
            | RestartKind::Take { .. }
            | RestartKind::Take2 { .. } => self.begin_row(shape, code, seat),
        }
    }
}

/// The address of the header with which the frame of a seat goes on. `None` exactly where the
/// seat's capsule is none of a frame, or its restart word names what isn't there, or the header
/// itself isn't there.
#[inline(always)]
pub fn header_of(shape: &Shape, seat: Seat) -> Option<u32>
    requires own { seat.own < shape.now.processors }
    requires place { seat.place < shape.now.processors }
    requires restart { IsRestart seat.restart }
    ensures { MatchOption result (HasNoHeader shape.now seat) (IsHeaderOf shape.now seat) }
{
    let RestartKind::Run { frame, copy } = seat.restart.kind else {
        return None;
    };
    if !restart_there(shape, seat.restart) {
        return None;
    }
    let header = header_at(frame, copy);
    if header < shape.word_count() {
        Some(header)
    } else {
        None
    }
}

/// The capsule with a number, begun by the seat's frame with registers of 0, up to its first word
/// step; `None` where the place has met broken words: there is no such capsule, or that word isn't
/// there.
#[inline(always)]
pub fn entered(
    shape: &Shape,
    code: &Code,
    seat: Seat,
    number: u64,
    registers: &mut [u64; 64],
) -> Option<Running>
    requires { IsSeat shape.now seat }
    ensures stands { HasEntered shape.now code.now seat registers.new
        (enters shape.now code.now seat seat.restart.kind (slice_get code.now.capsules number)) result }
    ensures holds { IfSome result (λ running. IsUnderWay shape.now code.now running registers.new
        × (running.seat ≡ seat)) }
{
    let RestartKind::Run { frame, copy } = seat.restart.kind else {
        return None;
    };
    if number >= code.parts().capsules.as_slice().len() as u64 {
        return None;
    }
    let found = code.capsule(number as u32)?;
    let _ = found.procedure;
    let mut running = Running {
        seat,
        home: Home {
            frame,
            copy,
            block: 0,
        },
        capsule: number as u32,
        next: 0,
        stage: Stage::Filled,
    };
    *registers = [0; 64];
    if running.go_on(shape, code, registers) {
        Some(running)
    } else {
        None
    }
}

/// The place of a seat goes on with a restart.
pub(crate) fn at(seat: Seat, restart: Restart) -> Stand
    ensures { result ≡ At seat.place (Some restart) }
{
    Stand::At {
        place: seat.place,
        restart: Some(restart),
    }
}

/// Where a place stands with a restart word that was installed.
#[tactic(auto, using(crate::proofs::ThereLemmas::restart_fits))]
pub(crate) fn installed(shape: &Shape, seat: Seat, restart: Restart) -> Stand
    requires { restart_is_there shape.now restart ≡ true }
    ensures value { result ≡ At seat.place (Some restart) }
    ensures fits { IsRestart restart }
{
    // The proof needs its limits.
    let _ = shape.word_count();
    at(seat, restart)
}
