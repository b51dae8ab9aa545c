//! What a processor is at, and what that is of.
ghost use Rattle.std.specs.Prelude.{◌≡◌, ◌++◌, OnOk};
ghost use Rattle.ppm_cells.specs.declared.shape.Shape.{Shape};
ghost use Rattle.ppm_code.specs.declared.code.CodeParts.{CodeParts};
ghost use Rattle.ppm_lines.specs.Doing.{row_with as row_by, doing_of as doing_by};
ghost use Rattle.ppm_lines.specs.Doing.{row_text as text_of_row, of_row as text_of, of_text};
ghost use Rattle.ppm_step.specs.Locals.{standing_of};

use crate::name::{
    push_block, push_branch, push_fork, push_frame, push_place, push_run, push_word,
};
use crate::scene::Scene;
use ppm_cells::{Cell, Restart, RestartKind};
use ppm_naming::{push_cell, restart_name};
use ppm_step::{Local, Stand};
use ppm_words::NoMemory;

/// What a processor is at before a turn.
#[derive(Clone, Copy, Debug, PartialEq, Eq)]
pub enum Doing {
    /// It has lost its registers.
    Lost,
    /// It knows its place alone.
    Placed,
    /// It is before a row of this kind, or within it.
    InRow(RestartKind),
    /// It has met broken words.
    Broken,
    /// It takes no step any more.
    Done,
}

/// A row, if its restart word can be read.
fn row_with(restart: Option<Restart>) -> Doing
    ensures { result ≡ row_by restart }
{
    match restart {
        None => Doing::Broken,
        Some(restart) => Doing::InRow(restart.kind),
    }
}

/// What a processor is at.
pub fn doing_of(local: &Local) -> Doing
    ensures { (s : Shape) (code : CodeParts) → result ≡ doing_by (standing_of s code local.now) }
{
    match &local.stand {
        Stand::Lost => Doing::Lost,
        Stand::Placed { .. } => Doing::Placed,
        Stand::At { restart, .. } => row_with(*restart),
        Stand::Within { seat, .. } => Doing::InRow(seat.restart.kind),
        Stand::Runs(running) => Doing::InRow(running.seat.restart.kind),
        Stand::Broken { .. } => Doing::Broken,
        Stand::Done => Doing::Done,
    }
}

/// How it is called.
pub(crate) fn row_text(doing: Doing) -> &'static str
    ensures { result.now ≡ text_of_row doing }
{
    match doing {
        Doing::Lost => "lost",
        Doing::Placed => "placed",
        Doing::InRow(kind) => restart_name(kind),
        Doing::Broken => "broken",
        Doing::Done => "done",
    }
}

/// Appends what a row is of.
pub fn push_of_row(text: &mut Vec<u8>, scene: &Scene, kind: RestartKind) -> Result<(), NoMemory>
    ensures { OnOk result (text.new.items ≡ text.old.items ++ text_of scene.now kind) }
{
    match kind {
        RestartKind::Run { frame, copy } => push_run(text, scene, frame, copy),
        RestartKind::Bump { block } => push_block(text, scene, block),
        RestartKind::Push1 { block } | RestartKind::Push2 { block } | RestartKind::Pop2 { block } =>
            push_fork(text, block),
        RestartKind::Unwind { frame } => push_frame(text, scene, frame),
        RestartKind::Arrive { block, side } | RestartKind::Join { block, side } => {
            push_branch(text, block, side)
        }
        RestartKind::Pop1 | RestartKind::Seek => push_word(text, "-"),
        RestartKind::Steal { victim, slot } | RestartKind::Check { victim, slot } => {
            let entry = Cell::EntryWord {
                place: victim,
                slot,
            };
            push_cell(text, scene.names(), scene.lengths(), entry)
        }
        RestartKind::Take { victim, .. } | RestartKind::Take2 { victim } => {
            push_place(text, victim)
        }
    }
}

/// Appends what the row of a processor is of; `-` where it is in no row, or its row has no
/// subject.
pub(crate) fn push_of(text: &mut Vec<u8>, scene: &Scene, doing: Doing) -> Result<(), NoMemory>
    ensures { OnOk result (text.new.items ≡ text.old.items ++ of_text scene.now doing) }
{
    match doing {
        Doing::InRow(kind) => push_of_row(text, scene, kind),
        Doing::Lost | Doing::Placed | Doing::Broken | Doing::Done => push_word(text, "-"),
    }
}
