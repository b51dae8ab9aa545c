//! What is told of a turn.
ghost use Rattle.std.specs.Prelude.{◌≡◌, ◌<◌, ◌≤◌, ◌+◌, ◌^◌, ◌++◌, [], ◌∷◌, OnOk, ℕ};
ghost use Rattle.ppm_core.specs.Machine.{seen};
ghost use Rattle.ppm_lines.specs.Line.{line_text};
ghost use Rattle.ppm_lines.specs.Marks.{marks_of};
ghost use Rattle.ppm_lines.specs.Shown.{is_shown as is_shown_by};
ghost use Rattle.ppm_lines.specs.declared.form.Form.TheVariants.{Lines};
ghost use Rattle.ppm_step.specs.Among.{IsTurnAmong};
ghost use Rattle.ppm_trace.specs.Counts.{counted, total};
ghost use Rattle.ppm_trace.specs.Json.{kept_as, kept_if, written_as, written_if};
ghost use Rattle.ppm_trace.specs.Telling.{HasTold};

use crate::counts::Counts;
use crate::events::push_written_events;
use crate::strokes::{push_dead_lanes, push_stroke};
use ppm_core::Machine;
use ppm_lines::{Form, Only, Scene, is_shown_at, marks_at, push_line};
use ppm_naming::Names;
use ppm_picture::Stroke;
use ppm_step::Turn;
use ppm_words::NoMemory;
use std::alloc::Global;

/// What is told of a run: in which form, if in any, and from which act on. In no form nothing is
/// written, and the run is counted alone.
#[derive(Clone, Copy, Debug, PartialEq, Eq)]
pub struct Excerpt {
    pub form: Option<Form>,
    pub from: u64,
}

/// What was told so far, and what is kept of acts for their picture.
#[derive(Drop)]
pub struct Tale {
    pub text: Vec<u8>,
    pub strokes: Vec<Stroke>,
    pub counts: Counts,
}

/// Whether a turn is shown that is told.
fn is_shown(machine: &Machine, only: Only, turn: Turn) -> bool
    requires { IsTurnAmong (seen machine.now).shape.processors turn }
    ensures { result
        ≡ is_shown_by (seen machine.now).shape (seen machine.now).code only (seen machine.now).state turn }
{
    let _ = machine.array_lengths();
    let shape = machine.shape();
    let local = machine.local(turn.processor);
    is_shown_at(
        machine.words(),
        &shape,
        machine.code(),
        only,
        local,
        turn.act,
    )
}

/// Appends the line of a turn.
fn push_shown(
    alloc: Global,
    text: &mut Vec<u8>,
    machine: &Machine,
    names: &Names,
    turn: Turn,
) -> Result<(), NoMemory>
    requires { IsTurnAmong (seen machine.now).shape.processors turn }
    ensures { OnOk result (text.new.items
        ≡ text.old.items ++ line_text names.now (seen machine.now).array_lengths (seen machine.now).shape (seen machine.now).code (seen machine.now).turns (seen machine.now).state turn) }
{
    let shape = machine.shape();
    let scene = Scene::new(
        names,
        machine.array_lengths(),
        &shape,
        machine.code(),
        machine.words(),
    );
    let local = machine.local(turn.processor);
    push_line(alloc, text, &scene, machine.turns(), local, turn)
}

/// Appends the line of a turn, if it is shown.
fn push_if_shown(
    alloc: Global,
    text: &mut Vec<u8>,
    machine: &Machine,
    names: &Names,
    only: Only,
    turn: Turn,
) -> Result<(), NoMemory>
    requires { IsTurnAmong (seen machine.now).shape.processors turn }
    ensures { (from : ℕ) → OnOk result (text.new.items
        ≡ text.old.items ++ written_as names.now (Lines only) from (seen machine.now) turn) }
{
    if !is_shown(machine, only, turn) {
        return Ok(());
    }
    push_shown(alloc, text, machine, names, turn)
}

/// Appends what is written of a turn that is told, in a form.
fn push_written(
    alloc: Global,
    text: &mut Vec<u8>,
    machine: &Machine,
    names: &Names,
    form: Form,
    from: u64,
    turn: Turn,
) -> Result<(), NoMemory>
    requires among { IsTurnAmong (seen machine.now).shape.processors turn }
    requires turns { (seen machine.now).turns < 2 ^ 62 }
    ensures { OnOk result (text.new.items
        ≡ text.old.items ++ written_as names.now form from (seen machine.now) turn) }
{
    match form {
        Form::Lines(only) => push_if_shown(alloc, text, machine, names, only, turn),
        Form::Events => push_written_events(text, machine, names, from, turn),
        Form::Picture => push_dead_lanes(alloc, text, machine, from),
    }
}

/// Keeps what is shown of a turn, if there is to be a picture.
fn keep(
    strokes: &mut Vec<Stroke>,
    machine: &Machine,
    names: &Names,
    form: Form,
    turn: Turn,
) -> Result<(), NoMemory>
    requires { IsTurnAmong (seen machine.now).shape.processors turn }
    ensures { OnOk result (strokes.new.items
        ≡ strokes.old.items ++ kept_as names.now form (seen machine.now) turn) }
{
    match form {
        Form::Lines(_) | Form::Events => Ok(()),
        Form::Picture => push_stroke(strokes, machine, names, turn),
    }
}

/// Appends what is written of a turn that is told, if anything is.
fn push_if_written(
    alloc: Global,
    text: &mut Vec<u8>,
    machine: &Machine,
    names: &Names,
    excerpt: Excerpt,
    turn: Turn,
) -> Result<(), NoMemory>
    requires among { IsTurnAmong (seen machine.now).shape.processors turn }
    requires turns { (seen machine.now).turns < 2 ^ 62 }
    ensures { OnOk result (text.new.items
        ≡ text.old.items ++ written_if names.now excerpt.form excerpt.from (seen machine.now) turn) }
{
    let Some(form) = excerpt.form else {
        return Ok(());
    };
    push_written(alloc, text, machine, names, form, excerpt.from, turn)
}

/// Keeps what is shown of a turn, if a form is asked for that is made of it.
fn keep_if_asked(
    strokes: &mut Vec<Stroke>,
    machine: &Machine,
    names: &Names,
    form: Option<Form>,
    turn: Turn,
) -> Result<(), NoMemory>
    requires { IsTurnAmong (seen machine.now).shape.processors turn }
    ensures { OnOk result (strokes.new.items
        ≡ strokes.old.items ++ kept_if names.now form (seen machine.now) turn) }
{
    let Some(form) = form else {
        return Ok(());
    };
    keep(strokes, machine, names, form, turn)
}

/// Counts a turn with its marks.
fn count(machine: &Machine, counts: &mut Counts, turn: Turn)
    requires among { IsTurnAmong (seen machine.now).shape.processors turn }
    requires few { total counts.old + 3 < 2 ^ 64 }
    ensures value { counts.new
        ≡ counted counts.old (marks_of (seen machine.now).shape (seen machine.now).code (seen machine.now).state turn) }
    ensures bound { total counts.new ≤ total counts.old + 3 }
{
    let _ = machine.array_lengths();
    let shape = machine.shape();
    let local = machine.local(turn.processor);
    counts.count(marks_at(machine.words(), &shape, machine.code(), local, turn.act));
}

/// Tells a turn of a machine that is not made yet.
pub(crate) fn tell(
    alloc: Global,
    machine: &Machine,
    tale: &mut Tale,
    names: &Names,
    excerpt: Excerpt,
    turn: Turn,
) -> Result<(), NoMemory>
    requires among { IsTurnAmong (seen machine.now).shape.processors turn }
    requires turns { (seen machine.now).turns < 2 ^ 62 }
    requires few { total tale.old.counts + 3 < 2 ^ 64 }
    ensures told { OnOk result (HasTold names.now excerpt (seen machine.now) (turn
        ∷ []) tale.old tale.new) }
    ensures bound { OnOk result (total tale.new.counts ≤ total tale.old.counts + 3) }
{
    if machine.turns() < excerpt.from {
        return Ok(());
    }
    count(machine, &mut tale.counts, turn);
    push_if_written(alloc, &mut tale.text, machine, names, excerpt, turn)?;
    keep_if_asked(&mut tale.strokes, machine, names, excerpt.form, turn)?;
    Ok(())
}
