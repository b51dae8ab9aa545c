//! As what a lane of a picture is painted while its processor acts.
ghost use Rattle.std.specs.Prelude.{◌≡◌};
ghost use Rattle.ppm_picture.specs.Strokes.{building_paint, paint_by, paint_of as paint_at};
ghost use Rattle.ppm_picture.specs.Strokes.{row_paint};

use ppm_cells::RestartKind;
use ppm_lines::{Doing, Scene};

/// As what a lane of a picture is painted.
#[derive(Clone, Copy, Debug, PartialEq, Eq)]
pub enum Paint {
    /// The processor finds its place, and where that place stands.
    Placing,
    /// It looks for work.
    Looking,
    /// It runs a procedure, by the remainder of that procedure's number by 8.
    Running(u32),
    /// It forks or joins.
    Forking,
    /// It steals.
    Stealing,
    /// It takes over.
    TakingOver,
}

/// A row of a procedure; of none, that of broken words.
fn paint_by(procedure: Option<u32>) -> Paint
    ensures { result ≡ paint_by procedure }
{
    match procedure {
        None => Paint::Forking,
        Some(procedure) => Paint::Running(procedure % 8),
    }
}

/// A row that ends the building of a block.
fn building_paint(scene: &Scene, block: u32) -> Paint
    ensures { result ≡ building_paint scene.now block }
{
    if scene.is_fork_block(block) {
        return Paint::Forking;
    }
    paint_by(scene.procedure_of(block))
}

/// A row of this kind.
fn row_paint(scene: &Scene, kind: RestartKind) -> Paint
    ensures { result ≡ row_paint scene.now kind }
{
    match kind {
        RestartKind::Run { frame, .. } | RestartKind::Unwind { frame } => {
            paint_by(scene.procedure_of(frame))
        }
        RestartKind::Bump { block } => building_paint(scene, block),
        RestartKind::Seek => Paint::Looking,
        RestartKind::Steal { .. } | RestartKind::Check { .. } => Paint::Stealing,
        RestartKind::Take { .. } | RestartKind::Take2 { .. } => Paint::TakingOver,
        RestartKind::Push1 { .. }
        | RestartKind::Push2 { .. }
        | RestartKind::Arrive { .. }
        | RestartKind::Join { .. }
        | RestartKind::Pop1
        | RestartKind::Pop2 { .. } => Paint::Forking,
    }
}

/// As what the lane of a processor is painted that is at this; not at all where it is done, or has
/// met broken words.
pub(crate) fn paint_of(scene: &Scene, doing: Doing) -> Option<Paint>
    ensures { result ≡ paint_at scene.now doing }
{
    match doing {
        Doing::Lost | Doing::Placed => Some(Paint::Placing),
        Doing::InRow(kind) => Some(row_paint(scene, kind)),
        Doing::Broken | Doing::Done => None,
    }
}
