//! The ruler under a picture, and its empty lanes.
ghost use Rattle.std.specs.Prelude.{◌≡◌, ◌+◌, ◌++◌, ◌≤◌, ◌*◌, ◌/◌, ◌-◌, OnOk};
ghost use Rattle.std.specs.List.{flat_map, range_with_len};
ghost use Rattle.ppm_picture.specs.Canvas.{IsCanvas};
ghost use Rattle.ppm_picture.specs.Markup.{part_text};
ghost use Rattle.ppm_picture.specs.Ruler.{distance_among, Fits, lane_text, lanes_text};
ghost use Rattle.ppm_picture.specs.Ruler.{ruler_label, ruler_text, tick_label};
ghost use Rattle.ppm_picture.specs.Ruler.{tick_opening, tick_text, ticks_by};

use crate::arrow::push_upright;
use crate::canvas::{Canvas, lane};
use crate::markup::Markup::{Fixed, Grouped, Number};
use crate::markup::{Markup, push_markup};
use ppm_words::NoMemory;
use std::alloc::Global;

/// How many acts may lie between two ticks.
const DISTANCES: [u64; 16] = [
    1, 2, 5, 10, 20, 50, 100, 200, 500, 1000, 2000, 5000, 10000, 20000, 50000, 100000,
];

/// The first of these by which twelve go over all acts.
fn distance_among(among: &[u64], acts: u64) -> u64
    ensures { result ≡ distance_among among.now acts }
{
    let mut left = among;
    while let [distance, rest @ ..] = left {
        if acts <= distance.saturating_mul(12) {
            return *distance;
        }
        left = rest;
    }
    acts
}

/// With what the number of a tick begins: it stands in the middle under the tick, and near the right
/// edge it ends there.
fn tick_opening(x: u64) -> Markup
    ensures { part_text result ≡ tick_opening x }
{
    if x <= 88_300 {
        return Fixed("<text class=\"t u m\" x=\"");
    }
    Fixed("<text class=\"t u e\" x=\"")
}

/// Appends the number of a tick, under the last lane.
fn push_tick_label(
    alloc: Global,
    text: &mut Vec<u8>,
    canvas: Canvas,
    x: u64,
    act: u64,
) -> Result<(), NoMemory>
    ensures { OnOk result (text.new.items ≡ text.old.items ++ tick_label canvas x act) }
{
    let parts = [
        tick_opening(x),
        Number(x),
        Fixed("\" y=\""),
        Number(canvas.bottom() + 1500),
        Fixed("\">"),
        Grouped(act),
        Fixed("</text>\n"),
    ];
    push_markup(alloc, text, &parts)
}

/// Appends a tick at so many distances from the run's first act.
fn push_tick(
    alloc: Global,
    text: &mut Vec<u8>,
    canvas: Canvas,
    distance: u64,
    number: u64,
) -> Result<(), NoMemory>
    requires canvas { IsCanvas canvas }
    requires within { number * distance ≤ canvas.from + canvas.acts }
    ensures { OnOk result (text.new.items ≡ text.old.items ++ tick_text canvas distance number) }
{
    let act = number * distance;
    let x = canvas.across(act.saturating_sub(canvas.from));
    push_upright(alloc, text, "g", x, 5600, canvas.bottom())?;
    push_tick_label(alloc, text, canvas, x, act)
}

/// Appends the ticks from one number on, up to the end.
fn push_ticks_between(
    alloc: Global,
    text: &mut Vec<u8>,
    canvas: Canvas,
    distance: u64,
    first: u64,
    end: u64,
) -> Result<(), NoMemory>
    requires canvas { IsCanvas canvas }
    requires within { end ≤ (canvas.from + canvas.acts) / distance + 1 }
    ensures { OnOk result (text.new.items
        ≡ text.old.items ++ flat_map (tick_text canvas distance) (range_with_len first (end - first))) }
{
    let mut number = first;
    while number < end {
        push_tick(alloc, text, canvas, distance, number)?;
        number += 1;
    }
    Ok(())
}

/// Appends all ticks.
fn push_ticks(
    alloc: Global,
    text: &mut Vec<u8>,
    canvas: Canvas,
    distance: u64,
) -> Result<(), NoMemory>
    requires canvas { IsCanvas canvas }
    requires fits { Fits distance }
    ensures { OnOk result (text.new.items ≡ text.old.items ++ ticks_by canvas distance) }
{
    let first = (canvas.from + distance - 1) / distance;
    let end = (canvas.from + canvas.acts) / distance + 1;
    push_ticks_between(alloc, text, canvas, distance, first, end)
}

/// Appends what the ruler counts, at a height.
fn push_ruler_label(alloc: Global, text: &mut Vec<u8>, y: u64) -> Result<(), NoMemory>
    ensures { OnOk result (text.new.items ≡ text.old.items ++ ruler_label y) }
{
    let parts = [
        Fixed("<text class=\"t u\" x=\"900\" y=\""),
        Number(y),
        Fixed("\">acts</text>\n"),
    ];
    push_markup(alloc, text, &parts)
}

/// Appends the ruler.
pub(crate) fn push_ruler(alloc: Global, text: &mut Vec<u8>, canvas: Canvas) -> Result<(), NoMemory>
    requires canvas { IsCanvas canvas }
    ensures { OnOk result (text.new.items ≡ text.old.items ++ ruler_text canvas) }
{
    push_ticks(alloc, text, canvas, distance_among(&DISTANCES, canvas.acts))?;
    push_ruler_label(alloc, text, canvas.bottom() + 1500)?;
    Ok(())
}

/// Appends an empty lane.
fn push_lane(alloc: Global, text: &mut Vec<u8>, processor: u32) -> Result<(), NoMemory>
    ensures { OnOk result (text.new.items ≡ text.old.items ++ lane_text processor) }
{
    let parts = [
        Fixed("<rect class=\"lane\" x=\"6400\" y=\""),
        Number(lane(processor)),
        Fixed("\" width=\"84000\" height=\"2400\"/>"),
        Fixed("<text class=\"t e\" x=\"5700\" y=\""),
        Number(lane(processor) + 1650),
        Fixed("\">p"),
        Number(u64::from(processor)),
        Fixed("</text>\n"),
    ];
    push_markup(alloc, text, &parts)
}

/// Appends all lanes.
pub(crate) fn push_lanes(alloc: Global, text: &mut Vec<u8>, processors: u32) -> Result<(), NoMemory>
    ensures { OnOk result (text.new.items ≡ text.old.items ++ lanes_text processors) }
{
    for processor in 0..processors {
        push_lane(alloc, text, processor)?;
    }
    Ok(())
}
