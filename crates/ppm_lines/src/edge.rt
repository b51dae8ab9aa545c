//! Whether a row begins or ends by a turn.
ghost use Rattle.std.specs.Prelude.{◌≡◌, ◌<◌};
ghost use Rattle.ppm_cells.specs.declared.shape.Shape.{Shape};
ghost use Rattle.ppm_code.specs.declared.code.CodeParts.{CodeParts};
ghost use Rattle.ppm_lines.specs.Events.{edge_between, edge_of as edge_at};
ghost use Rattle.ppm_lines.specs.Events.{is_in_row as is_in_row_at, next_standing};
ghost use Rattle.ppm_step.specs.Among.{IsTurnAmong};
ghost use Rattle.ppm_step.specs.Locals.{IsLocal, standing_of};
ghost use Rattle.ppm_step.specs.Standings.{wanted, went, WantIsWithin};
ghost use Rattle.ppm_step.specs.State.{found_in};

use crate::scene::Scene;
use ppm_step::{Act, Local, Stand, Turn, Want};

/// What a turn is to rows.
#[derive(Clone, Copy, Debug, PartialEq, Eq)]
pub enum Edge {
    /// One begins.
    Begins,
    /// One ends.
    Ends,
    /// Neither.
    Stays,
}

/// Whether a processor is within a row.
pub(crate) fn is_in_row(local: &Local) -> bool
    ensures { (s : Shape) (code : CodeParts)
        → result ≡ is_in_row_at (standing_of s code local.now) }
{
    match &local.stand {
        Stand::Within { .. } | Stand::Runs(_) => true,
        Stand::Lost
        | Stand::Placed { .. }
        | Stand::At { .. }
        | Stand::Broken { .. }
        | Stand::Done => false,
    }
}

/// The word that a load finds.
fn found_in(scene: &Scene, want: Want) -> u64
    requires { WantIsWithin scene.now.shape want }
    ensures { result ≡ found_in scene.now.words want }
{
    match want {
        Want::Loads(at) => scene.words()[at as usize],
        Want::Stores(..) | Want::Exchanges(..) | Want::Nothing => 0,
    }
}

/// A copy of the processor.
fn copied(local: &Local) -> Local
    ensures { result ≡ local.now }
{
    Local {
        own: local.own,
        stand: local.stand,
        registers: local.registers,
    }
}

/// Whether a processor is within a row after a step.
fn is_in_row_after(scene: &Scene, local: &Local, victim: u32) -> bool
    requires local { IsLocal scene.now.shape scene.now.code local.now }
    requires victim { victim < scene.now.shape.processors }
    ensures { result ≡ is_in_row_at
        (went scene.now.shape scene.now.code local.now.own victim
        (found_in scene.now.words (wanted scene.now.shape local.now.own victim (standing_of scene.now.shape scene.now.code local.now)))
        (standing_of scene.now.shape scene.now.code local.now)) }
{
    let want = local.want(scene.shape(), scene.code(), victim);
    let found = found_in(scene, want);
    let mut next = copied(local);
    next.observe(scene.shape(), scene.code(), victim, found);
    is_in_row(&next)
}

/// Whether it is after a turn.
fn goes_on(scene: &Scene, local: &Local, turn: Turn) -> bool
    requires local { IsLocal scene.now.shape scene.now.code local.now }
    requires own { local.now.own ≡ turn.processor }
    requires among { IsTurnAmong scene.now.shape.processors turn }
    ensures { result ≡ is_in_row_at
        (next_standing scene.now turn (standing_of scene.now.shape scene.now.code local.now)) }
{
    match turn.act {
        Act::Step { victim } => is_in_row_after(scene, local, victim),
        Act::Soft | Act::Hard | Act::Quit(_) => false,
    }
}

/// What a turn is to rows, by whether its processor is within one before it and after it.
fn edge_between(before: bool, after: bool) -> Edge
    ensures { result ≡ edge_between before after }
{
    if before {
        if after { Edge::Stays } else { Edge::Ends }
    } else {
        if after { Edge::Begins } else { Edge::Stays }
    }
}

/// What a turn is to rows, where `local` is its processor before it.
pub fn edge_of(scene: &Scene, local: &Local, turn: Turn) -> Edge
    requires local { IsLocal scene.now.shape scene.now.code local.now }
    requires own { local.now.own ≡ turn.processor }
    requires among { IsTurnAmong scene.now.shape.processors turn }
    ensures { result
        ≡ edge_at scene.now turn (standing_of scene.now.shape scene.now.code local.now) }
{
    edge_between(is_in_row(local), goes_on(scene, local, turn))
}
