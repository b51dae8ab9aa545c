//! What is kept of a turn for a picture.
ghost use Rattle.std.specs.Prelude.{◌≡◌, ◌<◌, ◌++◌, [], ◌∷◌, OnOk};
ghost use Rattle.std.specs.List.{flat_map, range_with_len};
ghost use Rattle.ppm_core.specs.Machine.{seen};
ghost use Rattle.ppm_picture.specs.Strokes.{drawn_of};
ghost use Rattle.ppm_step.specs.Among.{IsTurnAmong};
ghost use Rattle.ppm_trace.specs.Picture.{dead_lane, dead_lanes};

use ppm_cells::Cell;
use ppm_core::Machine;
use ppm_lines::Scene;
use ppm_naming::Names;
use ppm_picture::{Stroke, push_dead_lane as push_dotted, stroke_of};
use ppm_step::Turn;
use ppm_words::NoMemory;
use std::alloc::Global;

/// Keeps what is shown of a turn.
pub(crate) fn push_stroke(
    strokes: &mut Vec<Stroke>,
    machine: &Machine,
    names: &Names,
    turn: Turn,
) -> Result<(), NoMemory>
    requires { IsTurnAmong (seen machine.now).shape.processors turn }
    ensures { OnOk result (strokes.new.items
        ≡ strokes.old.items ++ drawn_of names.now (seen machine.now).array_lengths (seen machine.now).shape (seen machine.now).code (seen machine.now).state turn ∷ []) }
{
    let shape = machine.shape();
    let scene = Scene::new(
        names,
        machine.array_lengths(),
        &shape,
        machine.code(),
        machine.words(),
    );
    let local = machine.local(turn.processor);
    strokes.push(stroke_of(&scene, local, turn))?;
    Ok(())
}

/// Appends the lane of a processor, if it is dead.
fn push_dead_lane(
    alloc: Global,
    text: &mut Vec<u8>,
    machine: &Machine,
    processor: u32,
) -> Result<(), NoMemory>
    requires { processor < (seen machine.now).shape.processors }
    ensures { OnOk result (text.new.items ≡ text.old.items ++ dead_lane (seen machine.now) processor) }
{
    let _ = machine.array_lengths();
    let at = machine.shape().address(Cell::DeadWord { processor });
    if machine.words()[at as usize] == 0 {
        return Ok(());
    }
    push_dotted(alloc, text, processor)
}

/// Appends those of all.
fn push_dead_all(alloc: Global, text: &mut Vec<u8>, machine: &Machine) -> Result<(), NoMemory>
    ensures { OnOk result (text.new.items
        ≡ text.old.items ++ flat_map (dead_lane (seen machine.now)) (range_with_len 0 (seen machine.now).shape.processors)) }
{
    let processors = machine.processors();
    for processor in 0..processors {
        push_dead_lane(alloc, text, machine, processor)?;
    }
    Ok(())
}

/// Appends these before the first act that is told.
pub(crate) fn push_dead_lanes(
    alloc: Global,
    text: &mut Vec<u8>,
    machine: &Machine,
    from: u64,
) -> Result<(), NoMemory>
    ensures { OnOk result (text.new.items ≡ text.old.items ++ dead_lanes from (seen machine.now)) }
{
    if machine.turns() != from {
        return Ok(());
    }
    push_dead_all(alloc, text, machine)
}
