//! Arrows between the lanes of a picture, and the marks at an act.
ghost use Rattle.std.specs.Prelude.{◌≡◌, ◌++◌, ◌≤◌, ◌^◌, OnOk, length};
ghost use Rattle.std.specs.List.{flat_map};
ghost use Rattle.ppm_lines.specs.Marks.{listed_one};
ghost use Rattle.ppm_picture.specs.Arrows.{arrow_text, arrows_from, disc, downward};
ghost use Rattle.ppm_picture.specs.Arrows.{label_height, mark_arrow, path_from, place_label};
ghost use Rattle.ppm_picture.specs.Arrows.{shaft, takeover_text, upright, upward};
ghost use Rattle.ppm_picture.specs.Canvas.{IsCanvas, middle};

use crate::canvas::{Canvas, lane};
use crate::markup::Markup::{Fixed, Number};
use crate::markup::push_markup;
use crate::stroke::Stroke;
use ppm_lines::Mark;
use ppm_words::NoMemory;
use std::alloc::Global;

/// What an arrow shows.
#[derive(Clone, Copy, Debug, PartialEq, Eq)]
pub enum Arrow {
    /// A thief goes on with a branch.
    Theft,
    /// A processor goes on with the work of a dead one.
    Takeover,
}

impl Arrow {
    ghost use Rattle.std.specs.Prelude.{◌≡◌};
    ghost use Rattle.ppm_picture.specs.Arrows as arrows;

    /// The class of its line.
    fn line_class(self) -> &'static str
        ensures { result.now ≡ arrows.line_class self }
    {
        match self {
            Arrow::Theft => "a",
            Arrow::Takeover => "o",
        }
    }

    /// The class of its ends.
    fn end_class(self) -> &'static str
        ensures { result.now ≡ arrows.end_class self }
    {
        match self {
            Arrow::Theft => "q",
            Arrow::Takeover => "r",
        }
    }
}

/// Appends an upright line.
pub(crate) fn push_upright(
    alloc: Global,
    text: &mut Vec<u8>,
    class: &'static str,
    x: u64,
    start: u64,
    end: u64,
) -> Result<(), NoMemory>
    ensures { OnOk result (text.new.items ≡ text.old.items ++ upright class.now x start end) }
{
    let parts = [
        Fixed("<path class=\""),
        Fixed(class),
        Fixed("\" d=\"M"),
        Number(x),
        Fixed(" "),
        Number(start),
        Fixed("V"),
        Number(end),
        Fixed("\"/>\n"),
    ];
    push_markup(alloc, text, &parts)
}

/// Appends a disc.
pub(crate) fn push_disc(
    alloc: Global,
    text: &mut Vec<u8>,
    class: &'static str,
    x: u64,
    y: u64,
    radius: u64,
) -> Result<(), NoMemory>
    ensures { OnOk result (text.new.items ≡ text.old.items ++ disc class.now x y radius) }
{
    let parts = [
        Fixed("<circle class=\""),
        Fixed(class),
        Fixed("\" cx=\""),
        Number(x),
        Fixed("\" cy=\""),
        Number(y),
        Fixed("\" r=\""),
        Number(radius),
        Fixed("\"/>\n"),
    ];
    push_markup(alloc, text, &parts)
}

/// Appends a path that begins at a point.
pub(crate) fn push_path(
    alloc: Global,
    text: &mut Vec<u8>,
    class: &'static str,
    x: u64,
    y: u64,
    path: &'static str,
) -> Result<(), NoMemory>
    ensures { OnOk result (text.new.items ≡ text.old.items ++ path_from class.now x y path.now) }
{
    let parts = [
        Fixed("<path class=\""),
        Fixed(class),
        Fixed("\" d=\"M"),
        Number(x),
        Fixed(" "),
        Number(y),
        Fixed(path),
        Fixed("\"/>\n"),
    ];
    push_markup(alloc, text, &parts)
}

/// Appends the lines of an arrow, and where it starts.
fn push_shaft(
    alloc: Global,
    text: &mut Vec<u8>,
    arrow: Arrow,
    x: u64,
    start: u64,
    end: u64,
) -> Result<(), NoMemory>
    ensures { OnOk result (text.new.items ≡ text.old.items ++ shaft arrow x start end) }
{
    push_upright(alloc, text, "b", x, start, end)?;
    push_upright(alloc, text, arrow.line_class(), x, start, end)?;
    push_disc(alloc, text, arrow.end_class(), x, start, 340)
}

/// Appends an arrow from a lane to a later one.
fn push_down(
    alloc: Global,
    text: &mut Vec<u8>,
    arrow: Arrow,
    x: u64,
    source: u32,
    target: u32,
) -> Result<(), NoMemory>
    ensures { OnOk result (text.new.items ≡ text.old.items ++ downward arrow x source target) }
{
    let tip = lane(target);
    push_shaft(alloc, text, arrow, x, lane(source) + 2400, tip - 800)?;
    push_path(alloc, text, arrow.end_class(), x, tip, "l-450 -800h900z")?;
    Ok(())
}

/// Appends an arrow from a lane to an earlier one.
fn push_up(
    alloc: Global,
    text: &mut Vec<u8>,
    arrow: Arrow,
    x: u64,
    source: u32,
    target: u32,
) -> Result<(), NoMemory>
    ensures { OnOk result (text.new.items ≡ text.old.items ++ upward arrow x source target) }
{
    let top = lane(target);
    push_shaft(alloc, text, arrow, x, lane(source), top + 2400 + 800)?;
    push_path(
        alloc,
        text,
        arrow.end_class(),
        x,
        top + 2400,
        "l-450 800h900z",
    )?;
    Ok(())
}

/// Appends an arrow, if it leads to another lane.
fn push_arrow(
    alloc: Global,
    text: &mut Vec<u8>,
    arrow: Arrow,
    x: u64,
    source: u32,
    target: u32,
) -> Result<(), NoMemory>
    ensures { OnOk result (text.new.items ≡ text.old.items ++ arrow_text arrow x source target) }
{
    if source == target {
        return Ok(());
    }
    if source < target {
        return push_down(alloc, text, arrow, x, source, target);
    }
    push_up(alloc, text, arrow, x, source, target)
}

/// Where the number of a place stands that is taken over.
fn label_height(source: u32, target: u32) -> u64
    ensures { result ≡ label_height source target }
{
    if source < target {
        return lane(target) - 1500;
    }
    lane(target) + 4500
}

/// Appends that number.
fn push_place(alloc: Global, text: &mut Vec<u8>, x: u64, y: u64, place: u32) -> Result<(), NoMemory>
    requires { x ≤ 2 ^ 62 }
    ensures { OnOk result (text.new.items ≡ text.old.items ++ place_label x y place) }
{
    let parts = [
        Fixed("<text class=\"t r\" x=\""),
        Number(x + 600),
        Fixed("\" y=\""),
        Number(y),
        Fixed("\">place "),
        Number(u64::from(place)),
        Fixed("</text>\n"),
    ];
    push_markup(alloc, text, &parts)
}

/// Appends a takeover of a place.
fn push_takeover(
    alloc: Global,
    text: &mut Vec<u8>,
    x: u64,
    source: u32,
    target: u32,
) -> Result<(), NoMemory>
    requires { x ≤ 2 ^ 62 }
    ensures { OnOk result (text.new.items ≡ text.old.items ++ takeover_text x source target) }
{
    push_arrow(alloc, text, Arrow::Takeover, x, source, target)?;
    push_place(alloc, text, x, label_height(source, target), source)?;
    Ok(())
}

/// Appends what leads from a lane to an act with a mark in another.
fn push_mark_arrow(
    alloc: Global,
    text: &mut Vec<u8>,
    x: u64,
    source: u32,
    target: u32,
    mark: Mark,
) -> Result<(), NoMemory>
    requires { x ≤ 2 ^ 62 }
    ensures { OnOk result (text.new.items ≡ text.old.items ++ mark_arrow x source target mark) }
{
    match mark {
        Mark::Won => push_arrow(alloc, text, Arrow::Theft, x, source, target),
        Mark::Heir => push_arrow(alloc, text, Arrow::Takeover, x, source, target),
        Mark::Carries => push_takeover(alloc, text, x, source, target),
        Mark::Fork
        | Mark::Push
        | Mark::Pop
        | Mark::Try
        | Mark::Inherit
        | Mark::Lost
        | Mark::Take
        | Mark::First
        | Mark::Last
        | Mark::Inline
        | Mark::Bid
        | Mark::Outbid
        | Mark::Soft
        | Mark::Hard
        | Mark::End
        | Mark::Done => Ok(()),
    }
}

/// Appends what leads from a lane to an act in another, if the act has a mark.
fn push_arrow_of(
    alloc: Global,
    text: &mut Vec<u8>,
    x: u64,
    source: u32,
    target: u32,
    mark: Option<Mark>,
) -> Result<(), NoMemory>
    requires { x ≤ 2 ^ 62 }
    ensures { OnOk result (text.new.items
        ≡ text.old.items ++ flat_map (mark_arrow x source target) (listed_one mark)) }
{
    match mark {
        None => Ok(()),
        Some(mark) => push_mark_arrow(alloc, text, x, source, target, mark),
    }
}

/// Appends the arrows to an act.
fn push_arrows_to(
    alloc: Global,
    text: &mut Vec<u8>,
    canvas: Canvas,
    act: u64,
    stroke: &Stroke,
) -> Result<(), NoMemory>
    requires canvas { IsCanvas canvas }
    requires few { act ≤ 2 ^ 41 }
    ensures { OnOk result (text.new.items
        ≡ text.old.items ++ flat_map (mark_arrow (middle canvas act) stroke.now.source stroke.now.processor) stroke.now.marks) }
{
    let marks = stroke.marks;
    let source = stroke.source;
    let target = stroke.processor;
    let x = canvas.middle(act);
    push_arrow_of(alloc, text, x, source, target, marks.first)?;
    push_arrow_of(alloc, text, x, source, target, marks.second)
}

/// Appends the arrows to all acts.
pub(crate) fn push_arrows(
    alloc: Global,
    text: &mut Vec<u8>,
    canvas: Canvas,
    strokes: &[Stroke],
) -> Result<(), NoMemory>
    requires canvas { IsCanvas canvas }
    requires few { length strokes.now ≤ canvas.acts }
    ensures { OnOk result (text.new.items ≡ text.old.items ++ arrows_from canvas 0 strokes.now) }
{
    let mut act = 0;
    let mut left = strokes;
    while let [stroke, rest @ ..] = left {
        push_arrows_to(alloc, text, canvas, act, stroke)?;
        act += 1;
        left = rest;
    }
    Ok(())
}
