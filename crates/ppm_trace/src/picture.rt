//! A trace as a picture.
ghost use Rattle.std.specs.Prelude.{◌≡◌, ◌++◌, ◌≤◌, ◌^◌, IfOk, OnOk, length};
ghost use Rattle.ppm_trace.specs.Picture.{by_text, canvas_of, counts_text, picture_text};

use crate::counts::Counts;
use crate::tale::Tale;
use ppm_cells::{Shape, Takeover};
use ppm_naming::Names;
use ppm_picture::Markup::{Fixed, Grouped};
use ppm_picture::{Canvas, push_legend, push_markup, push_middle, push_top};
use ppm_words::NoMemory;
use std::alloc::Global;

/// What is taken over.
fn by(takeover: Takeover) -> &'static str
    ensures { result.now ≡ by_text takeover }
{
    match takeover {
        Takeover::ByPlaces => " by places</text>\n",
        Takeover::ByEntries => " by entries</text>\n",
    }
}

/// Appends the second line over the lanes: what was counted.
fn push_counts(
    alloc: Global,
    text: &mut Vec<u8>,
    counts: Counts,
    takeover: Takeover,
) -> Result<(), NoMemory>
    ensures { OnOk result (text.new.items ≡ text.old.items ++ counts_text counts takeover) }
{
    let parts = [
        Fixed("<text class=\"t u\" x=\"6400\" y=\"4100\">forks "),
        Grouped(counts.forks),
        Fixed(", taken "),
        Grouped(counts.takes),
        Fixed(", thefts won "),
        Grouped(counts.won),
        Fixed(", lost "),
        Grouped(counts.lost),
        Fixed(", soft faults "),
        Grouped(counts.soft),
        Fixed(", hard faults "),
        Grouped(counts.hard),
        Fixed(", takeovers "),
        Grouped(counts.takeovers),
        Fixed(by(takeover)),
    ];
    push_markup(alloc, text, &parts)
}

/// The canvas of so many acts, of which there may be none.
fn canvas_of(processors: u32, from: u64, acts: usize) -> Canvas
    ensures { result ≡ canvas_of processors from acts }
{
    Canvas {
        acts: (acts as u64).max(1),
        from,
        processors,
    }
}

/// The picture of what was told, of a machine of these sizes, from an act on.
pub(crate) fn picture(
    alloc: Global,
    shape: &Shape,
    names: &Names,
    from: u64,
    tale: &Tale,
    finish: u64,
) -> Result<Vec<u8>, NoMemory>
    requires few { length tale.now.strokes.items ≤ 2 ^ 40 }
    requires from { from ≤ 2 ^ 40 }
    ensures { IfOk result (λ text. text.items
        ≡ picture_text names.now shape.now (canvas_of shape.now.processors from (length tale.now.strokes.items)) tale.now.strokes.items tale.now.text.items tale.now.counts finish) }
{
    let strokes = tale.strokes.as_slice();
    let canvas = canvas_of(shape.processors, from, strokes.len());
    let mut text = Vec::new(alloc);
    push_top(alloc, &mut text, canvas, tale.counts.acts, finish)?;
    push_counts(alloc, &mut text, tale.counts, shape.takeover)?;
    push_middle(alloc, &mut text, canvas, strokes, tale.text.as_slice())?;
    push_legend(alloc, &mut text, canvas, names)?;
    Ok(text)
}
