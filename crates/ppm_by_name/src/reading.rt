//! What is read where a run traps.
ghost use Rattle.std.specs.Prelude.{◌≡◌, IfOk, OnOk, [], map};
ghost use Rattle.ppm_tree.specs.Tree.{expression_of, procedure_of, side_of};
ghost use Rattle.ppm_by_name.specs.Frames.{frame_of};
ghost use Rattle.ppm_by_name.specs.Readings.{argument_in, arguments_in, is_read as is_read_in};
ghost use Rattle.ppm_by_name.specs.Readings.{lent_in, read_in, side_in, with_local_read, with_reading};
ghost use Rattle.ppm_by_name.specs.Readings.{with_region_read};
ghost use Rattle.ppm_by_name.specs.Arguments.{arguments_of};

use crate::entering::named;
use crate::frame::{Frame, same};
use crate::held::{Held, Reading};
use ppm_tree::{Argument, Expr, Mode, Parameter, Proc, Side};
use ppm_words::{Name, NoMemory};
use std::alloc::Global;

/// Whether a name is among those that are read.
fn is_read(readings: &[Reading], name: &Name) -> bool
    ensures { result ≡ is_read_in readings.now name.now }
{
    let mut left = readings;
    while let [first, rest @ ..] = left {
        if same(&first.name, name) {
            return true;
        }
        left = rest;
    }
    false
}

/// Adds a name with what it stands for, unless it is there.
fn push_reading(
    alloc: Global,
    readings: &mut Vec<Reading>,
    name: &Name,
    held: Held,
) -> Result<(), NoMemory>
    ensures { OnOk result (readings.new.items ≡ with_reading readings.old.items name.now held) }
{
    if is_read(readings, name) {
        return Ok(());
    }
    let name = name.try_clone(alloc)?;
    readings.push(Reading { name, held })?;
    Ok(())
}

/// Adds a local.
fn push_local(
    alloc: Global,
    frame: &Frame,
    name: &Name,
    readings: &mut Vec<Reading>,
) -> Result<(), NoMemory>
    ensures { OnOk result (readings.new.items
        ≡ with_local_read (frame_of frame.now) name.now readings.old.items) }
{
    push_reading(alloc, readings, name, Held::Value(frame.local(name)))
}

/// Adds a region.
fn push_region(
    alloc: Global,
    frame: &Frame,
    name: &Name,
    readings: &mut Vec<Reading>,
) -> Result<(), NoMemory>
    ensures { OnOk result (readings.new.items
        ≡ with_region_read (frame_of frame.now) name.now readings.old.items) }
{
    push_reading(
        alloc,
        readings,
        name,
        Held::Words(frame.region(name).length()),
    )
}

/// Adds the names of an expression.
fn read(alloc: Global, frame: &Frame, e: &Expr, readings: &mut Vec<Reading>) -> Result<(), NoMemory>
    ensures { OnOk result (readings.new.items
        ≡ read_in (frame_of frame.now) (expression_of e.now) readings.old.items) }
{
    match e {
        Expr::Number(_) => Ok(()),
        Expr::Name(name) => push_local(alloc, frame, &name.name, readings),
        Expr::Element(name, index) => {
            push_region(alloc, frame, &name.name, readings)?;
            read(alloc, frame, index, readings)
        }
        Expr::Len(name) => push_region(alloc, frame, &name.name, readings),
        Expr::Minus(_, operand) => read(alloc, frame, operand, readings),
        Expr::Binary(_, _, left, right) => {
            read(alloc, frame, left, readings)?;
            read(alloc, frame, right, readings)
        }
    }
}

/// Adds the region that an argument lends.
fn read_lent(
    alloc: Global,
    frame: &Frame,
    e: &Expr,
    readings: &mut Vec<Reading>,
) -> Result<(), NoMemory>
    ensures { OnOk result (readings.new.items
        ≡ lent_in (frame_of frame.now) (expression_of e.now) readings.old.items) }
{
    match e {
        Expr::Name(name) => push_region(alloc, frame, &name.name, readings),
        Expr::Number(_) => Ok(()),
        Expr::Element(_, _) => Ok(()),
        Expr::Len(_) => Ok(()),
        Expr::Minus(_, _) => Ok(()),
        Expr::Binary(_, _, _, _) => Ok(()),
    }
}

/// Adds the names of an argument.
fn read_argument(
    alloc: Global,
    frame: &Frame,
    mode: Mode,
    e: &Expr,
    readings: &mut Vec<Reading>,
) -> Result<(), NoMemory>
    ensures { OnOk result (readings.new.items
        ≡ argument_in (frame_of frame.now) mode (expression_of e.now) readings.old.items) }
{
    match mode {
        Mode::Int => read(alloc, frame, e, readings),
        Mode::Mut => read_lent(alloc, frame, e, readings),
        Mode::Ref => read_lent(alloc, frame, e, readings),
    }
}

/// Adds the names of arguments, as far as there are parameters for them.
fn read_arguments(
    alloc: Global,
    frame: &Frame,
    parameters: &[Parameter],
    arguments: &[Argument],
    readings: &mut Vec<Reading>,
) -> Result<(), NoMemory>
    ensures { OnOk result (readings.new.items
        ≡ arguments_in (frame_of frame.now) parameters.now (arguments_of arguments.now) readings.old.items) }
{
    let Some((parameter, parameters)) = parameters.split_first() else {
        return Ok(());
    };
    let Some((argument, arguments)) = arguments.split_first() else {
        return Ok(());
    };
    read_argument(alloc, frame, parameter.mode, &argument.value, readings)?;
    read_arguments(alloc, frame, parameters, arguments, readings)
}

/// The names of an expression.
pub fn read_value(alloc: Global, frame: &Frame, e: &Expr) -> Result<Vec<Reading>, NoMemory>
    ensures { IfOk result (λ v. v.items ≡ read_in (frame_of frame.now) (expression_of e.now) []) }
{
    let mut readings = Vec::new(alloc);
    read(alloc, frame, e, &mut readings)?;
    Ok(readings)
}

/// The names of an assignment to an element.
pub fn read_element(
    alloc: Global,
    frame: &Frame,
    name: &Name,
    index: &Expr,
    e: &Expr,
) -> Result<Vec<Reading>, NoMemory>
    ensures { IfOk result (λ v. v.items ≡ read_in (frame_of frame.now) (expression_of e.now) (read_in (frame_of frame.now) (expression_of index.now) (with_region_read (frame_of frame.now) name.now []))) }
{
    let mut readings = Vec::new(alloc);
    push_region(alloc, frame, name, &mut readings)?;
    read(alloc, frame, index, &mut readings)?;
    read(alloc, frame, e, &mut readings)?;
    Ok(readings)
}

/// The names of a split.
pub fn read_split(
    alloc: Global,
    frame: &Frame,
    region: &Name,
    at: &Expr,
) -> Result<Vec<Reading>, NoMemory>
    ensures { IfOk result (λ v. v.items ≡ read_in (frame_of frame.now) (expression_of at.now) (with_region_read (frame_of frame.now) region.now [])) }
{
    let mut readings = Vec::new(alloc);
    push_region(alloc, frame, region, &mut readings)?;
    read(alloc, frame, at, &mut readings)?;
    Ok(readings)
}

/// Adds the names of a call or of a side of a fork.
fn read_side(
    alloc: Global,
    procedures: &[Proc],
    frame: &Frame,
    side: &Side,
    readings: &mut Vec<Reading>,
) -> Result<(), NoMemory>
    ensures { OnOk result (readings.new.items
        ≡ side_in (map procedure_of procedures.now) (frame_of frame.now) (side_of side.now) readings.old.items) }
{
    match named(procedures, &side.callee.name) {
        Some(procedure) => read_arguments(
            alloc,
            frame,
            procedure.parameters.as_slice(),
            side.arguments.as_slice(),
            readings,
        ),
        None => Err(NoMemory),
    }
}

/// The names of a call.
pub fn read_call(
    alloc: Global,
    procedures: &[Proc],
    frame: &Frame,
    side: &Side,
) -> Result<Vec<Reading>, NoMemory>
    ensures { IfOk result (λ v. v.items ≡ side_in (map procedure_of procedures.now) (frame_of frame.now) (side_of side.now) []) }
{
    let mut readings = Vec::new(alloc);
    read_side(alloc, procedures, frame, side, &mut readings)?;
    Ok(readings)
}

/// The names of a fork.
pub fn read_fork(
    alloc: Global,
    procedures: &[Proc],
    frame: &Frame,
    left: &Side,
    right: &Side,
) -> Result<Vec<Reading>, NoMemory>
    ensures { IfOk result (λ v. v.items ≡ side_in (map procedure_of procedures.now) (frame_of frame.now) (side_of right.now) (side_in (map procedure_of procedures.now) (frame_of frame.now) (side_of left.now) [])) }
{
    let mut readings = Vec::new(alloc);
    read_side(alloc, procedures, frame, left, &mut readings)?;
    read_side(alloc, procedures, frame, right, &mut readings)?;
    Ok(readings)
}
