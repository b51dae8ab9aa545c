//! What is written of a turn in the trace event format.
ghost use Rattle.std.specs.Prelude.{◌≡◌, ◌<◌, ◌^◌, ◌++◌, OnOk};
ghost use Rattle.std.specs.List.{flat_map, range_with_len};
ghost use Rattle.ppm_core.specs.Machine.{seen};
ghost use Rattle.ppm_lines.specs.Events.{events_text};
ghost use Rattle.ppm_step.specs.Among.{IsTurnAmong};
ghost use Rattle.ppm_trace.specs.Json.{begun_of, begun_rows, written_events};

use ppm_core::Machine;
use ppm_lines::{Scene, push_begun, push_events};
use ppm_naming::Names;
use ppm_step::Turn;
use ppm_words::NoMemory;

/// Appends the events of a turn.
fn push_turn(
    text: &mut Vec<u8>,
    machine: &Machine,
    names: &Names,
    turn: Turn,
) -> Result<(), NoMemory>
    requires among { IsTurnAmong (seen machine.now).shape.processors turn }
    requires turns { (seen machine.now).turns < 2 ^ 62 }
    ensures { OnOk result (text.new.items
        ≡ text.old.items ++ events_text names.now (seen machine.now).array_lengths (seen machine.now).shape (seen machine.now).code (seen machine.now).turns (seen machine.now).state turn) }
{
    let shape = machine.shape();
    let scene = Scene::new(
        names,
        machine.array_lengths(),
        &shape,
        machine.code(),
        machine.words(),
    );
    let local = machine.local(turn.processor);
    push_events(text, &scene, machine.turns(), local, turn)?;
    Ok(())
}

/// Appends the beginning of the row within which a processor stands.
fn push_begun_of(
    text: &mut Vec<u8>,
    machine: &Machine,
    names: &Names,
    processor: u32,
) -> Result<(), NoMemory>
    requires { processor < (seen machine.now).shape.processors }
    ensures { OnOk result (text.new.items
        ≡ text.old.items ++ begun_of names.now (seen machine.now) processor) }
{
    let shape = machine.shape();
    let scene = Scene::new(
        names,
        machine.array_lengths(),
        &shape,
        machine.code(),
        machine.words(),
    );
    let local = machine.local(processor);
    push_begun(text, &scene, machine.turns(), local)
}

/// Appends those of all processors.
fn push_begun_all(text: &mut Vec<u8>, machine: &Machine, names: &Names) -> Result<(), NoMemory>
    ensures { OnOk result (text.new.items
        ≡ text.old.items ++ flat_map (begun_of names.now (seen machine.now)) (range_with_len 0 (seen machine.now).shape.processors)) }
{
    let processors = machine.processors();
    for processor in 0..processors {
        push_begun_of(text, machine, names, processor)?;
    }
    Ok(())
}

/// Appends these before the first act that is told.
fn push_begun_rows(
    text: &mut Vec<u8>,
    machine: &Machine,
    names: &Names,
    from: u64,
) -> Result<(), NoMemory>
    ensures { OnOk result (text.new.items
        ≡ text.old.items ++ begun_rows names.now from (seen machine.now)) }
{
    if machine.turns() != from {
        return Ok(());
    }
    push_begun_all(text, machine, names)
}

/// Appends what is written of a turn that is told.
pub(crate) fn push_written_events(
    text: &mut Vec<u8>,
    machine: &Machine,
    names: &Names,
    from: u64,
    turn: Turn,
) -> Result<(), NoMemory>
    requires among { IsTurnAmong (seen machine.now).shape.processors turn }
    requires turns { (seen machine.now).turns < 2 ^ 62 }
    ensures { OnOk result (text.new.items
        ≡ text.old.items ++ written_events names.now from (seen machine.now) turn) }
{
    push_begun_rows(text, machine, names, from)?;
    push_turn(text, machine, names, turn)
}
