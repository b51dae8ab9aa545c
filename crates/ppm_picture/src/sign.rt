//! The marks at an act of a picture.
ghost use Rattle.std.specs.Prelude.{◌≡◌, ◌++◌, ◌≤◌, ◌^◌, OnOk, length};
ghost use Rattle.std.specs.List.{flat_map};
ghost use Rattle.ppm_lines.specs.Marks.{listed_one};
ghost use Rattle.ppm_picture.specs.Arrows.{cross, dotted, fine_sign, fine_where_few};
ghost use Rattle.ppm_picture.specs.Arrows.{mark_sign, signs_from};
ghost use Rattle.ppm_picture.specs.Canvas.{IsCanvas, lane as lane_at, middle};

use crate::arrow::{push_disc, push_path};
use crate::canvas::{Canvas, lane};
use crate::markup::Markup::{Fixed, Number};
use crate::markup::push_markup;
use crate::stroke::Stroke;
use ppm_lines::Mark;
use ppm_words::NoMemory;
use std::alloc::Global;

/// Appends a cross.
fn push_cross(
    alloc: Global,
    text: &mut Vec<u8>,
    class: &'static str,
    x: u64,
    y: u64,
    size: u64,
) -> Result<(), NoMemory>
    ensures { OnOk result (text.new.items ≡ text.old.items ++ cross class.now x y size) }
{
    let parts = [
        Fixed("<path class=\""),
        Fixed(class),
        Fixed("\" d=\"M"),
        Number(x),
        Fixed(" "),
        Number(y),
        Fixed("l"),
        Number(size),
        Fixed(" "),
        Number(size),
        Fixed("m0 -"),
        Number(size),
        Fixed("l-"),
        Number(size),
        Fixed(" "),
        Number(size),
        Fixed("\"/>\n"),
    ];
    push_markup(alloc, text, &parts)
}

/// Appends a dotted line to the end of a lane.
pub(crate) fn push_dotted(alloc: Global, text: &mut Vec<u8>, x: u64, y: u64) -> Result<(), NoMemory>
    ensures { OnOk result (text.new.items ≡ text.old.items ++ dotted x y) }
{
    let parts = [
        Fixed("<path class=\"d\" d=\"M"),
        Number(x),
        Fixed(" "),
        Number(y),
        Fixed("H90400\"/>\n"),
    ];
    push_markup(alloc, text, &parts)
}

/// Appends a fork, or a branch at its join.
fn push_fine_sign(
    alloc: Global,
    text: &mut Vec<u8>,
    x: u64,
    y: u64,
    mark: Mark,
) -> Result<(), NoMemory>
    requires y { 6200 ≤ y × y ≤ 2 ^ 62 }
    ensures { OnOk result (text.new.items ≡ text.old.items ++ fine_sign x y mark) }
{
    match mark {
        Mark::Fork => push_path(alloc, text, "f", x, y - 150, "l-420 -750h840z"),
        Mark::First => push_disc(alloc, text, "y", x, y + 3000, 330),
        Mark::Last | Mark::Inline => push_disc(alloc, text, "z", x, y + 3000, 390),
        Mark::Push
        | Mark::Pop
        | Mark::Try
        | Mark::Inherit
        | Mark::Won
        | Mark::Heir
        | Mark::Lost
        | Mark::Take
        | Mark::Bid
        | Mark::Carries
        | Mark::Outbid
        | Mark::Soft
        | Mark::Hard
        | Mark::End
        | Mark::Done => Ok(()),
    }
}

/// Appends it where few acts are shown.
fn push_where_few(
    alloc: Global,
    text: &mut Vec<u8>,
    acts: u64,
    x: u64,
    y: u64,
    mark: Mark,
) -> Result<(), NoMemory>
    requires y { 6200 ≤ y × y ≤ 2 ^ 62 }
    ensures { OnOk result (text.new.items ≡ text.old.items ++ fine_where_few acts x y mark) }
{
    if acts > 10000 {
        return Ok(());
    }
    push_fine_sign(alloc, text, x, y, mark)
}

/// Appends a mark at an act.
fn push_sign(
    alloc: Global,
    text: &mut Vec<u8>,
    acts: u64,
    x: u64,
    y: u64,
    mark: Mark,
) -> Result<(), NoMemory>
    requires x { 6400 ≤ x × x ≤ 2 ^ 62 }
    requires y { 6200 ≤ y × y ≤ 2 ^ 62 }
    ensures { OnOk result (text.new.items ≡ text.old.items ++ mark_sign acts x y mark) }
{
    match mark {
        Mark::Lost => push_cross(alloc, text, "a", x - 300, y + 2700, 600),
        Mark::Soft => push_cross(alloc, text, "x", x - 800, y + 400, 1600),
        Mark::Hard => {
            push_cross(alloc, text, "x", x - 1200, y, 2400)?;
            push_dotted(alloc, text, x + 1600, y + 1200)
        }
        Mark::Fork
        | Mark::Push
        | Mark::Pop
        | Mark::Try
        | Mark::Inherit
        | Mark::Won
        | Mark::Heir
        | Mark::Take
        | Mark::First
        | Mark::Last
        | Mark::Inline
        | Mark::Bid
        | Mark::Carries
        | Mark::Outbid
        | Mark::End
        | Mark::Done => push_where_few(alloc, text, acts, x, y, mark),
    }
}

/// Appends what is drawn at an act, if it has a mark.
fn push_sign_of(
    alloc: Global,
    text: &mut Vec<u8>,
    acts: u64,
    x: u64,
    y: u64,
    mark: Option<Mark>,
) -> Result<(), NoMemory>
    requires x { 6400 ≤ x × x ≤ 2 ^ 62 }
    requires y { 6200 ≤ y × y ≤ 2 ^ 62 }
    ensures { OnOk result (text.new.items
        ≡ text.old.items ++ flat_map (mark_sign acts x y) (listed_one mark)) }
{
    match mark {
        None => Ok(()),
        Some(mark) => push_sign(alloc, text, acts, x, y, mark),
    }
}

/// Appends the marks at an act.
fn push_signs_at(
    alloc: Global,
    text: &mut Vec<u8>,
    canvas: Canvas,
    act: u64,
    stroke: &Stroke,
) -> Result<(), NoMemory>
    requires canvas { IsCanvas canvas }
    requires few { act ≤ 2 ^ 41 }
    ensures { OnOk result (text.new.items
        ≡ text.old.items ++ flat_map (mark_sign canvas.acts (middle canvas act) (lane_at stroke.now.processor)) stroke.now.marks) }
{
    let marks = stroke.marks;
    let x = canvas.middle(act);
    let y = lane(stroke.processor);
    push_sign_of(alloc, text, canvas.acts, x, y, marks.first)?;
    push_sign_of(alloc, text, canvas.acts, x, y, marks.second)
}

/// Appends those at all acts.
pub(crate) fn push_signs(
    alloc: Global,
    text: &mut Vec<u8>,
    canvas: Canvas,
    strokes: &[Stroke],
) -> Result<(), NoMemory>
    requires canvas { IsCanvas canvas }
    requires few { length strokes.now ≤ canvas.acts }
    ensures { OnOk result (text.new.items ≡ text.old.items ++ signs_from canvas 0 strokes.now) }
{
    let mut act = 0;
    let mut left = strokes;
    while let [stroke, rest @ ..] = left {
        push_signs_at(alloc, text, canvas, act, stroke)?;
        act += 1;
        left = rest;
    }
    Ok(())
}
