//! What a picture shows of a turn.
ghost use Rattle.std.specs.Prelude.{◌≡◌, ◌<◌};
ghost use Rattle.ppm_picture.specs.Strokes.{drawn_at, held_by, robbed, source_of};
ghost use Rattle.ppm_picture.specs.Strokes.{source_in as source_by};
ghost use Rattle.ppm_step.specs.Among.{IsTurnAmong};
ghost use Rattle.ppm_step.specs.Locals.{IsLocal, standing_of};

use crate::paint::{Paint, paint_of};
use ppm_cells::{Cell, Holder, RestartKind, Takeover};
use ppm_lines::{Doing, Edge, Marks, Scene, doing_of, edge_of, marks_at};
use ppm_step::{Local, Turn};
use std::marker::Model;

/// What a picture shows of a turn: who acts, as what its lane is painted, whether a row begins or
/// ends, the marks, and the lane from which an arrow leads to it.
#[derive(Drop)]
pub struct Stroke {
    pub processor: u32,
    pub paint: Option<Paint>,
    pub edge: Edge,
    pub marks: Marks,
    pub source: u32,
}

impl Model for Stroke {
    ghost use Rattle.ppm_picture.specs.Strokes as strokes;
    ghost use Rattle.ppm_lines.specs.Marks.{listed};

    ghost Value = { strokes.Drawn };

    ghost view = { λ stroke. record {
      processor = stroke.processor;
      paint = stroke.paint;
      edge = stroke.edge;
      marks = listed stroke.marks;
      source = stroke.source;
    } };
}

/// Who holds a place by its holder word.
fn held_by(place: u32, holder: Option<Holder>) -> u32
    ensures { result ≡ held_by place holder }
{
    match holder {
        None => place,
        Some(holder) => holder.processor,
    }
}

/// The lane of who is robbed of a place's work.
fn robbed(scene: &Scene, place: u32) -> u32
    ensures { result ≡ robbed scene.now place }
{
    let shape = scene.shape();
    if place >= shape.processors {
        return place;
    }
    match shape.takeover {
        Takeover::ByEntries => place,
        Takeover::ByPlaces => {
            let at = shape.address(Cell::HolderWord { place });
            held_by(place, Holder::unpack(scene.word_at(u64::from(at))))
        }
    }
}

/// The lane from which a row of this kind gets what it is after; its own for all others.
fn source_in(scene: &Scene, own: u32, kind: RestartKind) -> u32
    ensures { result ≡ source_by scene.now own kind }
{
    match kind {
        RestartKind::Check { victim, .. } => robbed(scene, victim),
        RestartKind::Take2 { victim } => victim,
        RestartKind::Run { .. }
        | RestartKind::Bump { .. }
        | RestartKind::Push1 { .. }
        | RestartKind::Push2 { .. }
        | RestartKind::Unwind { .. }
        | RestartKind::Arrive { .. }
        | RestartKind::Join { .. }
        | RestartKind::Pop1
        | RestartKind::Pop2 { .. }
        | RestartKind::Seek
        | RestartKind::Steal { .. }
        | RestartKind::Take { .. } => own,
    }
}

/// The lane from which an arrow to an act leads, by what its processor is at.
fn source_of(scene: &Scene, own: u32, doing: Doing) -> u32
    ensures { result ≡ source_of scene.now own doing }
{
    match doing {
        Doing::InRow(kind) => source_in(scene, own, kind),
        Doing::Lost | Doing::Placed | Doing::Broken | Doing::Done => own,
    }
}

/// What a picture shows of a turn, where `local` is its processor before it.
pub fn stroke_of(scene: &Scene, local: &Local, turn: Turn) -> Stroke
    requires local { IsLocal scene.now.shape scene.now.code local.now }
    requires own { local.now.own ≡ turn.processor }
    requires among { IsTurnAmong scene.now.shape.processors turn }
    ensures { result
        ≡ drawn_at scene.now turn (standing_of scene.now.shape scene.now.code local.now) }
{
    let doing = doing_of(local);
    Stroke {
        processor: turn.processor,
        paint: paint_of(scene, doing),
        edge: edge_of(scene, local, turn),
        marks: marks_at(scene.words(), scene.shape(), scene.code(), local, turn.act),
        source: source_of(scene, turn.processor, doing),
    }
}
