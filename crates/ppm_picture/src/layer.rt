//! The layers of a picture: all that is painted in one colour is one path.
ghost use Rattle.std.specs.Prelude.{◌≡◌, ◌++◌, ◌≤◌, ◌+◌, ◌^◌, OnOk, length};
ghost use Rattle.std.specs.List.{flat_map};
ghost use Rattle.ppm_picture.specs.Strokes.{Drawn};
ghost use Rattle.ppm_picture.specs.Canvas.{IsCanvas};
ghost use Rattle.ppm_picture.specs.Layers.{class_text, depth_of, end_of, ends_from, is_within};
ghost use Rattle.ppm_picture.specs.Layers.{layer_text, layers, layers_text, row_ends, span_of, spans_from};

use crate::canvas::{Canvas, lane};
use crate::markup::Markup::{Fixed, Number};
use crate::markup::push_markup;
use crate::paint::Paint;
use crate::stroke::Stroke;
use ppm_lines::Edge;
use ppm_words::NoMemory;
use std::alloc::Global;

/// All layers, the lowest first.
const LAYERS: [Paint; 13] = [
    Paint::Placing,
    Paint::Looking,
    Paint::Running(0),
    Paint::Running(1),
    Paint::Running(2),
    Paint::Running(3),
    Paint::Running(4),
    Paint::Running(5),
    Paint::Running(6),
    Paint::Running(7),
    Paint::Forking,
    Paint::Stealing,
    Paint::TakingOver,
];

/// How many layers lie under that of a paint.
fn depth_of(paint: Paint) -> u64
    ensures { result ≡ depth_of paint }
{
    match paint {
        Paint::Placing => 0,
        Paint::Looking => 1,
        Paint::Running(procedure) => 2 + u64::from(procedure),
        Paint::Forking => 10,
        Paint::Stealing => 11,
        Paint::TakingOver => 12,
    }
}

/// Appends the class of a paint.
fn push_class(alloc: Global, text: &mut Vec<u8>, paint: Paint) -> Result<(), NoMemory>
    ensures { OnOk result (text.new.items ≡ text.old.items ++ class_text paint) }
{
    match paint {
        Paint::Placing => push_markup(alloc, text, &[Fixed("back")]),
        Paint::Looking => push_markup(alloc, text, &[Fixed("seek")]),
        Paint::Running(procedure) => {
            push_markup(alloc, text, &[Fixed("c"), Number(u64::from(procedure))])
        }
        Paint::Forking => push_markup(alloc, text, &[Fixed("sched")]),
        Paint::Stealing => push_markup(alloc, text, &[Fixed("steal")]),
        Paint::TakingOver => push_markup(alloc, text, &[Fixed("over")]),
    }
}

/// Whether something is painted so.
fn is_within(layer: Paint, paint: Option<Paint>) -> bool
    ensures { result ≡ is_within layer paint }
{
    match paint {
        None => false,
        Some(paint) => depth_of(paint) == depth_of(layer),
    }
}

/// Appends the span of an act, if it lies in a layer.
fn push_span(
    alloc: Global,
    text: &mut Vec<u8>,
    canvas: Canvas,
    layer: Paint,
    act: u64,
    stroke: &Stroke,
) -> Result<(), NoMemory>
    requires canvas { IsCanvas canvas }
    requires few { act ≤ 2 ^ 41 }
    ensures { OnOk result (text.new.items ≡ text.old.items ++ span_of canvas layer act stroke.now) }
{
    if !is_within(layer, stroke.paint) {
        return Ok(());
    }
    let parts = [
        Fixed("M"),
        Number(canvas.across(act)),
        Fixed(" "),
        Number(lane(stroke.processor) + 1200),
        Fixed("h"),
        Number(canvas.width(act)),
    ];
    push_markup(alloc, text, &parts)
}

/// Appends the spans of a layer.
fn push_spans(
    alloc: Global,
    text: &mut Vec<u8>,
    canvas: Canvas,
    layer: Paint,
    strokes: &[Stroke],
) -> Result<(), NoMemory>
    requires canvas { IsCanvas canvas }
    requires few { length strokes.now ≤ canvas.acts }
    ensures { OnOk result (text.new.items ≡ text.old.items ++ spans_from canvas layer 0 strokes.now) }
{
    let mut act = 0;
    let mut left = strokes;
    while let [stroke, rest @ ..] = left {
        push_span(alloc, text, canvas, layer, act, stroke)?;
        act += 1;
        left = rest;
    }
    Ok(())
}

/// Appends a layer.
fn push_layer(
    alloc: Global,
    text: &mut Vec<u8>,
    canvas: Canvas,
    strokes: &[Stroke],
    layer: Paint,
) -> Result<(), NoMemory>
    requires canvas { IsCanvas canvas }
    requires few { length strokes.now ≤ canvas.acts }
    ensures { OnOk result (text.new.items ≡ text.old.items ++ layer_text canvas strokes.now layer) }
{
    push_markup(alloc, text, &[Fixed("<path class=\"")])?;
    push_class(alloc, text, layer)?;
    push_markup(alloc, text, &[Fixed("\" d=\"")])?;
    push_spans(alloc, text, canvas, layer, strokes)?;
    push_markup(alloc, text, &[Fixed("\"/>\n")])
}

/// Appends these layers, one over the other.
fn push_each(
    alloc: Global,
    text: &mut Vec<u8>,
    canvas: Canvas,
    strokes: &[Stroke],
    layers: &[Paint],
) -> Result<(), NoMemory>
    requires canvas { IsCanvas canvas }
    requires few { length strokes.now ≤ canvas.acts }
    ensures { OnOk result (text.new.items
        ≡ text.old.items ++ flat_map (layer_text canvas strokes.now) layers.now) }
{
    let mut left = layers;
    while let [layer, rest @ ..] = left {
        push_layer(alloc, text, canvas, strokes, *layer)?;
        left = rest;
    }
    Ok(())
}

/// Appends all layers.
pub(crate) fn push_layers(
    alloc: Global,
    text: &mut Vec<u8>,
    canvas: Canvas,
    strokes: &[Stroke],
) -> Result<(), NoMemory>
    requires canvas { IsCanvas canvas }
    requires few { length strokes.now ≤ canvas.acts }
    ensures { OnOk result (text.new.items ≡ text.old.items ++ layers_text canvas strokes.now) }
{
    push_markup(alloc, text, &[Fixed("<g class=\"s\">\n")])?;
    push_each(alloc, text, canvas, strokes, &LAYERS)?;
    push_markup(alloc, text, &[Fixed("</g>\n")])
}

/// Appends the end of a row, if one ends.
fn push_row_end(
    alloc: Global,
    text: &mut Vec<u8>,
    canvas: Canvas,
    act: u64,
    stroke: &Stroke,
) -> Result<(), NoMemory>
    requires canvas { IsCanvas canvas }
    requires few { act ≤ 2 ^ 41 }
    ensures { OnOk result (text.new.items ≡ text.old.items ++ end_of canvas act stroke.now) }
{
    match stroke.edge {
        Edge::Begins | Edge::Stays => Ok(()),
        Edge::Ends => {
            let parts = [
                Fixed("M"),
                Number(canvas.across(act) + canvas.width(act)),
                Fixed(" "),
                Number(lane(stroke.processor)),
                Fixed("v2400"),
            ];
            push_markup(alloc, text, &parts)
        }
    }
}

/// Appends those of all acts.
fn push_ends(
    alloc: Global,
    text: &mut Vec<u8>,
    canvas: Canvas,
    strokes: &[Stroke],
) -> Result<(), NoMemory>
    requires canvas { IsCanvas canvas }
    requires few { length strokes.now ≤ canvas.acts }
    ensures { OnOk result (text.new.items ≡ text.old.items ++ ends_from canvas 0 strokes.now) }
{
    let mut act = 0;
    let mut left = strokes;
    while let [stroke, rest @ ..] = left {
        push_row_end(alloc, text, canvas, act, stroke)?;
        act += 1;
        left = rest;
    }
    Ok(())
}

/// Appends the ends of rows, where few acts are shown.
pub(crate) fn push_row_ends(
    alloc: Global,
    text: &mut Vec<u8>,
    canvas: Canvas,
    strokes: &[Stroke],
) -> Result<(), NoMemory>
    requires canvas { IsCanvas canvas }
    requires few { length strokes.now ≤ canvas.acts }
    ensures { OnOk result (text.new.items ≡ text.old.items ++ row_ends canvas strokes.now) }
{
    if canvas.acts > 1200 {
        return Ok(());
    }
    push_markup(alloc, text, &[Fixed("<path class=\"k\" d=\"")])?;
    push_ends(alloc, text, canvas, strokes)?;
    push_markup(alloc, text, &[Fixed("\"/>\n")])
}
