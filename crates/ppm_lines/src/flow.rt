//! Arrows between rows.
ghost use Rattle.std.specs.Prelude.{◌≡◌, true};
ghost use Rattle.ppm_lines.specs.Flows.{arrived, flow_at, flow_from, flow_installed, flow_row, flow_then};
ghost use Rattle.ppm_lines.specs.Flows.{joined_at, joins};
ghost use Rattle.ppm_step.specs.Facts.{IsRow, IsSeat};
ghost use Rattle.ppm_step.specs.Locals.{IsLocal, standing_of};
ghost use Rattle.ppm_step.specs.Standings.{row_is_there};

use crate::marking::has;
use crate::scene::Scene;
use ppm_cells::RestartKind;
use ppm_step::{Act, Local, Row, Seat, Stand, Then};

/// An end of an arrow, by the fork block that the arrow is of.
#[derive(Clone, Copy, Debug, PartialEq, Eq)]
pub enum Flow {
    /// The right branch is forked: the arrow of the branch begins.
    Forked { block: u32 },
    /// The right branch begins: that arrow ends.
    Taken { block: u32 },
    /// The first branch has come to the join: the arrow of the join begins.
    First { block: u32 },
    /// The last branch goes on after the join: that arrow ends.
    Last { block: u32 },
}

impl Flow {
    ghost use Rattle.std.specs.Prelude.{◌≡◌};
    ghost use Rattle.ppm_lines.specs.Flows.{flow_id, flow_name, flow_phase};

    /// `s` where the arrow begins, `f` where it ends.
    pub(crate) fn phase(self) -> &'static str
        ensures { result.now ≡ flow_phase self }
    {
        match self {
            Flow::Forked { .. } | Flow::First { .. } => "s",
            Flow::Taken { .. } | Flow::Last { .. } => "f",
        }
    }

    /// What the arrow is called.
    pub(crate) fn name(self) -> &'static str
        ensures { result.now ≡ flow_name self }
    {
        match self {
            Flow::Forked { .. } | Flow::Taken { .. } => "branch",
            Flow::First { .. } | Flow::Last { .. } => "join",
        }
    }

    /// The number that both its ends have.
    pub(crate) fn id(self) -> u64
        ensures { result ≡ flow_id self }
    {
        match self {
            Flow::Forked { block } | Flow::Taken { block } => 2 * u64::from(block),
            Flow::First { block } | Flow::Last { block } => 2 * u64::from(block) + 1,
        }
    }
}

/// A branch comes to its join: the first one makes the exchange of the order word.
fn arrived(kind: RestartKind, made: bool) -> Option<Flow>
    ensures { result ≡ arrived kind made }
{
    match kind {
        RestartKind::Arrive { block, .. } => if made {
            Some(Flow::First { block })
        } else {
            None
        },
        RestartKind::Run { .. }
        | RestartKind::Bump { .. }
        | RestartKind::Push1 { .. }
        | RestartKind::Push2 { .. }
        | RestartKind::Unwind { .. }
        | RestartKind::Join { .. }
        | RestartKind::Pop1
        | RestartKind::Pop2 { .. }
        | RestartKind::Seek
        | RestartKind::Steal { .. }
        | RestartKind::Check { .. }
        | RestartKind::Take { .. }
        | RestartKind::Take2 { .. } => None,
    }
}

/// A branch that goes on after its join. Where the order word is 3, one strand has run both.
fn joined_at(scene: &Scene, block: u32) -> Option<Flow>
    ensures { result ≡ joined_at scene.now block }
{
    if scene.word_at(u64::from(block) + 1) == 3 {
        return None;
    }
    Some(Flow::Last { block })
}

/// A branch at its join, which installs a restart of this kind.
fn joins(scene: &Scene, block: u32, installed: RestartKind) -> Option<Flow>
    ensures { result ≡ joins scene.now block installed }
{
    match installed {
        RestartKind::Pop1 => None,
        RestartKind::Run { .. }
        | RestartKind::Bump { .. }
        | RestartKind::Push1 { .. }
        | RestartKind::Push2 { .. }
        | RestartKind::Unwind { .. }
        | RestartKind::Arrive { .. }
        | RestartKind::Join { .. }
        | RestartKind::Pop2 { .. }
        | RestartKind::Seek
        | RestartKind::Steal { .. }
        | RestartKind::Check { .. }
        | RestartKind::Take { .. }
        | RestartKind::Take2 { .. } => joined_at(scene, block),
    }
}

/// The store of a restart word, in a row of this kind.
fn flow_installed(scene: &Scene, kind: RestartKind, installed: RestartKind) -> Option<Flow>
    ensures { result ≡ flow_installed scene.now kind installed }
{
    match kind {
        RestartKind::Join { block, .. } => joins(scene, block, installed),
        RestartKind::Run { .. }
        | RestartKind::Bump { .. }
        | RestartKind::Push1 { .. }
        | RestartKind::Push2 { .. }
        | RestartKind::Unwind { .. }
        | RestartKind::Arrive { .. }
        | RestartKind::Pop1
        | RestartKind::Pop2 { .. }
        | RestartKind::Seek
        | RestartKind::Steal { .. }
        | RestartKind::Check { .. }
        | RestartKind::Take { .. }
        | RestartKind::Take2 { .. } => None,
    }
}

/// What a row of this kind goes on with.
fn flow_then(scene: &Scene, kind: RestartKind, next: &Then) -> Option<Flow>
    ensures { result ≡ flow_then scene.now kind next.now }
{
    match next {
        Then::Fork { block } => Some(Flow::Forked { block: *block }),
        Then::Begin { block, .. } => Some(Flow::Taken { block: *block }),
        Then::Install(restart) => flow_installed(scene, kind, restart.kind),
        Then::Load(_) | Then::Move { .. } | Then::Enter { .. } | Then::Again | Then::Broken => None,
    }
}

/// A step within a row.
fn flow_row(scene: &Scene, seat: &Seat, row: &Row) -> Option<Flow>
    requires seat { IsSeat scene.now.shape seat.now }
    requires row { IsRow row.now }
    requires there { row_is_there scene.now.shape seat.now row.now ≡ true }
    ensures { result ≡ flow_row scene.now seat.now.restart.kind row.now }
{
    match row {
        Row::Now(next) => flow_then(scene, seat.restart.kind, next),
        Row::Store { .. } => None,
        Row::Exchange { cell, old, .. } => {
            arrived(
                seat.restart.kind,
                has(scene.words(), scene.shape(), *cell, old.word()),
            )
        }
    }
}

/// A step from where a processor stands.
fn flow_from(scene: &Scene, local: &Local) -> Option<Flow>
    requires local { IsLocal scene.now.shape scene.now.code local.now }
    ensures { result ≡ flow_from scene.now (standing_of scene.now.shape scene.now.code local.now) }
{
    match &local.stand {
        Stand::Within { seat, row } => flow_row(scene, seat, row),
        Stand::Lost
        | Stand::Placed { .. }
        | Stand::At { .. }
        | Stand::Runs(_)
        | Stand::Broken { .. }
        | Stand::Done => None,
    }
}

/// The end of an arrow, if an act of a processor that stands there is one.
pub(crate) fn flow_at(scene: &Scene, local: &Local, act: Act) -> Option<Flow>
    requires local { IsLocal scene.now.shape scene.now.code local.now }
    ensures { result ≡ flow_at scene.now act (standing_of scene.now.shape scene.now.code local.now) }
{
    match act {
        Act::Step { .. } => flow_from(scene, local),
        Act::Soft | Act::Hard | Act::Quit(_) => None,
    }
}
