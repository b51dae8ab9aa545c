//! What is counted of the acts of a processor.
ghost use Rattle.std.specs.Prelude.{◌≡◌};
ghost use Rattle.ppm_cells.specs.declared.shape.Shape.{Shape};
ghost use Rattle.ppm_code.specs.declared.code.CodeParts.{CodeParts};
ghost use Rattle.ppm_step.specs.Locals.{standing_of};
ghost use Rattle.ppm_step.specs.State.{is_work_next, is_work_turn};
ghost use Rattle.ppm_table.specs.Counting.{act_counts, both_counts, checked, gains, gains_in, installed_in, looks_at};
ghost use Rattle.ppm_table.specs.Counting.{moved_in, none_counted, row_counts, step_counts, counted, then_counts, together, work_counts};

use ppm_cells::RestartKind;
use ppm_step::{Act, Local, Next, Point, Row, Stand, Then};

/// What is counted of the acts of a processor, or of all those of a run. Each number goes up to
/// 2^64 - 1, and stays there.
#[derive(Clone, Copy, Debug, PartialEq, Eq)]
pub struct ActCounts {
    /// How many acts were made: steps, faults and quits.
    pub acts: u64,
    /// How many of these were work turns.
    pub work: u64,
    /// How many forks were made.
    pub forks: u64,
    /// How many right branches were taken, by thieves or by their own processors.
    pub takes: u64,
    /// How many thefts were won.
    pub stolen: u64,
    /// How often what a dead processor left was taken over: its place, or the strand of its place.
    pub takeovers: u64,
    /// How many soft faults there were.
    pub soft: u64,
    /// How many hard ones.
    pub hard: u64,
    /// Whether the row under way has looked where a closed place went on.
    pub inherits: bool,
}

/// Two numbers together, 2^64 - 1 at most.
fn together(some: u64, more: u64) -> u64
    ensures { result ≡ together some more }
{
    if more < u64::MAX - some {
        some + more
    } else {
        u64::MAX
    }
}

/// One more, 2^64 - 1 at most.
fn one_more(count: u64) -> u64
    ensures { result ≡ together count 1 }
{
    together(count, 1)
}

impl ActCounts {
    /// Nothing yet.
    pub fn none() -> ActCounts
        ensures { result ≡ none_counted }
    {
        ActCounts {
            acts: 0,
            work: 0,
            forks: 0,
            takes: 0,
            stolen: 0,
            takeovers: 0,
            soft: 0,
            hard: 0,
            inherits: false,
        }
    }

    /// A theft was won, or the strand of a closed place was taken over.
    fn gains(self) -> ActCounts
        ensures { result ≡ gains self.inherits self }
    {
        if self.inherits {
            ActCounts {
                takeovers: one_more(self.takeovers),
                ..self
            }
        } else {
            ActCounts {
                stolen: one_more(self.stolen),
                ..self
            }
        }
    }

    /// After a fork, or the beginning of a right branch, in a row of this kind.
    fn gains_in(self, row: RestartKind) -> ActCounts
        ensures { result ≡ gains_in row self }
    {
        match row {
            RestartKind::Check { .. } => self.gains(),
            RestartKind::Run { .. }
            | RestartKind::Bump { .. }
            | RestartKind::Push1 { .. }
            | RestartKind::Push2 { .. }
            | RestartKind::Unwind { .. }
            | RestartKind::Arrive { .. }
            | RestartKind::Join { .. }
            | RestartKind::Pop1
            | RestartKind::Pop2 { .. }
            | RestartKind::Seek
            | RestartKind::Steal { .. }
            | RestartKind::Take { .. }
            | RestartKind::Take2 { .. } => self,
        }
    }

    /// After Check has installed a restart of this kind.
    fn checked(self, installed: RestartKind) -> ActCounts
        ensures { result ≡ checked installed self }
    {
        match installed {
            RestartKind::Seek => self,
            RestartKind::Run { .. }
            | RestartKind::Bump { .. }
            | RestartKind::Push1 { .. }
            | RestartKind::Push2 { .. }
            | RestartKind::Unwind { .. }
            | RestartKind::Arrive { .. }
            | RestartKind::Join { .. }
            | RestartKind::Pop1
            | RestartKind::Pop2 { .. }
            | RestartKind::Steal { .. }
            | RestartKind::Check { .. }
            | RestartKind::Take { .. }
            | RestartKind::Take2 { .. } => self.gains(),
        }
    }

    /// After a row of this kind has installed a restart of that one.
    fn installed_in(self, row: RestartKind, installed: RestartKind) -> ActCounts
        ensures { result ≡ installed_in row installed self }
    {
        match row {
            RestartKind::Check { .. } => self.checked(installed),
            RestartKind::Run { .. }
            | RestartKind::Bump { .. }
            | RestartKind::Push1 { .. }
            | RestartKind::Push2 { .. }
            | RestartKind::Unwind { .. }
            | RestartKind::Arrive { .. }
            | RestartKind::Join { .. }
            | RestartKind::Pop1
            | RestartKind::Pop2 { .. }
            | RestartKind::Seek
            | RestartKind::Steal { .. }
            | RestartKind::Take { .. }
            | RestartKind::Take2 { .. } => self,
        }
    }

    /// After a row of this kind has moved to another place.
    fn moved_in(self, row: RestartKind) -> ActCounts
        ensures { result ≡ moved_in row self }
    {
        match row {
            RestartKind::Take2 { .. } => ActCounts {
                takeovers: one_more(self.takeovers),
                ..self
            },
            RestartKind::Run { .. }
            | RestartKind::Bump { .. }
            | RestartKind::Push1 { .. }
            | RestartKind::Push2 { .. }
            | RestartKind::Unwind { .. }
            | RestartKind::Arrive { .. }
            | RestartKind::Join { .. }
            | RestartKind::Pop1
            | RestartKind::Pop2 { .. }
            | RestartKind::Seek
            | RestartKind::Steal { .. }
            | RestartKind::Check { .. }
            | RestartKind::Take { .. } => self,
        }
    }

    /// After a load of a row.
    fn looks_at(self, point: Point) -> ActCounts
        ensures { result ≡ looks_at point self }
    {
        match point {
            Point::ClosedRestart { .. } => ActCounts {
                inherits: true,
                ..self
            },
            Point::Header { .. }
            | Point::BumpLink { .. }
            | Point::PushOrder { .. }
            | Point::PushAbove { .. }
            | Point::PushBottom { .. }
            | Point::UnwindLink { .. }
            | Point::UnwindOutcome { .. }
            | Point::Target { .. }
            | Point::GivenValue { .. }
            | Point::JoinOrder { .. }
            | Point::JoinLink { .. }
            | Point::JoinLeft { .. }
            | Point::JoinRight { .. }
            | Point::RightFrame { .. }
            | Point::Offset { .. }
            | Point::PopBelow
            | Point::PopAgain { .. }
            | Point::PopAbove { .. }
            | Point::SeekHolder
            | Point::SeekDead { .. }
            | Point::SeekTop { .. }
            | Point::SeekEntry { .. }
            | Point::SeekClosed { .. }
            | Point::StealMessage { .. }
            | Point::TakenMessage { .. }
            | Point::TakenEntry { .. }
            | Point::ClosedLink { .. }
            | Point::ClosedBottom { .. }
            | Point::BidMessage { .. }
            | Point::BidAgain { .. }
            | Point::BidHolder { .. } => self,
        }
    }

    /// After a load of a row of this kind, or the step with which it comes to an end.
    fn then(self, row: RestartKind, next: Then) -> ActCounts
        ensures { result ≡ then_counts row next self }
    {
        match next {
            Then::Load(point) => self.looks_at(point),
            Then::Install(restart) => self.installed_in(row, restart.kind),
            Then::Fork { .. } => ActCounts {
                forks: one_more(self.forks),
                ..self
            }
            .gains_in(row),
            Then::Begin { .. } => ActCounts {
                takes: one_more(self.takes),
                ..self
            }
            .gains_in(row),
            Then::Move { .. } => self.moved_in(row),
            Then::Enter { .. } | Then::Again | Then::Broken => self,
        }
    }

    /// After a step of a row of this kind.
    fn row(self, kind: RestartKind, row: &Row) -> ActCounts
        ensures { result ≡ row_counts kind row.now self }
    {
        match row {
            Row::Now(next) => self.then(kind, *next),
            Row::Store { .. } | Row::Exchange { .. } => self,
        }
    }

    /// After a step of a processor that stands there.
    fn step(self, local: &Local) -> ActCounts
        ensures { (s : Shape) (code : CodeParts) → result ≡ step_counts (standing_of s code local.now) self }
    {
        match &local.stand {
            Stand::At { .. } => ActCounts {
                inherits: false,
                ..self
            },
            Stand::Within { seat, row } => self.row(seat.restart.kind, row),
            Stand::Lost
            | Stand::Placed { .. }
            | Stand::Runs(_)
            | Stand::Broken { .. }
            | Stand::Done => self,
        }
    }

    /// After an act of a processor that stands there, but for whether it is work.
    fn act(self, local: &Local, act: Act) -> ActCounts
        ensures { (s : Shape) (code : CodeParts) → result ≡ act_counts act (standing_of s code local.now) self }
    {
        match act {
            Act::Step { .. } => self.step(local),
            Act::Soft => ActCounts {
                soft: one_more(self.soft),
                ..self
            },
            Act::Hard => ActCounts {
                hard: one_more(self.hard),
                ..self
            },
            Act::Quit(_) => self,
        }
    }

    /// With an act more, which is work or is none.
    fn one_act(self, work: bool) -> ActCounts
        ensures { result ≡ work_counts work self }
    {
        if work {
            ActCounts {
                acts: one_more(self.acts),
                work: one_more(self.work),
                ..self
            }
        } else {
            ActCounts {
                acts: one_more(self.acts),
                ..self
            }
        }
    }

    /// After an act of a processor that stands there.
    pub fn after(self, local: &Local, act: Act) -> ActCounts
        ensures { (s : Shape) (code : CodeParts) → result ≡ counted act (standing_of s code local.now) self }
    {
        self.one_act(is_work_turn(local, act)).act(local, act)
    }

    /// With what is counted of others; no row is under way.
    pub fn and(self, other: ActCounts) -> ActCounts
        ensures { result ≡ both_counts self other }
    {
        ActCounts {
            acts: together(self.acts, other.acts),
            work: together(self.work, other.work),
            forks: together(self.forks, other.forks),
            takes: together(self.takes, other.takes),
            stolen: together(self.stolen, other.stolen),
            takeovers: together(self.takeovers, other.takeovers),
            soft: together(self.soft, other.soft),
            hard: together(self.hard, other.hard),
            inherits: false,
        }
    }
}

/// Whether an act of a processor that stands there is a work turn.
fn is_work_turn(local: &Local, act: Act) -> bool
    ensures { (s : Shape) (code : CodeParts) → result ≡ is_work_turn act (standing_of s code local.now) }
{
    match act {
        Act::Step { .. } => is_work(local.next()),
        Act::Soft | Act::Hard | Act::Quit(_) => false,
    }
}

/// Whether a coming step is work.
fn is_work(next: Next) -> bool
    ensures { result ≡ is_work_next next }
{
    match next {
        Next::Work => true,
        Next::Look | Next::Seek | Next::Done => false,
    }
}
