//! The legend of a picture.
ghost use Rattle.std.specs.Prelude.{◌≡◌, ◌++◌, ◌≤◌, OnOk, length};
ghost use Rattle.ppm_picture.specs.Legend.{label_at, label_text, labels_from, legend_head};
ghost use Rattle.ppm_picture.specs.Legend.{legend_text, procedures_text};

use crate::canvas::Canvas;
use crate::markup::Markup::{Fixed, Number};
use crate::markup::{Markup, push_markup};
use ppm_naming::{Names, ProcedureName};
use ppm_words::NoMemory;
use std::alloc::Global;

/// What the other colours and the marks are.
const KEY: [Markup; 18] = [
    Fixed(
        "<rect class=\"sched\" x=\"0\" y=\"5050\" width=\"1600\" height=\"1200\"/><text class=\"t\" x=\"2000\" y=\"6100\">fork and join</text>\n",
    ),
    Fixed(
        "<rect class=\"steal\" x=\"12200\" y=\"5050\" width=\"1600\" height=\"1200\"/><text class=\"t\" x=\"14200\" y=\"6100\">stealing</text>\n",
    ),
    Fixed(
        "<rect class=\"over\" x=\"21500\" y=\"5050\" width=\"1600\" height=\"1200\"/><text class=\"t\" x=\"23500\" y=\"6100\">taking over</text>\n",
    ),
    Fixed(
        "<rect class=\"seek\" x=\"32800\" y=\"5050\" width=\"1600\" height=\"1200\"/><text class=\"t\" x=\"34800\" y=\"6100\">looking for work</text>\n",
    ),
    Fixed(
        "<rect class=\"back\" x=\"47600\" y=\"5050\" width=\"1600\" height=\"1200\"/><text class=\"t\" x=\"49600\" y=\"6100\">finding its place</text>\n",
    ),
    Fixed("<text class=\"t u\" x=\"62400\" y=\"6100\">empty: not scheduled, or done</text>\n"),
    Fixed(
        "<path class=\"f\" d=\"M800 8150l-420 -750h840z\"/><text class=\"t\" x=\"2000\" y=\"8200\">fork</text>\n",
    ),
    Fixed(
        "<circle class=\"y\" cx=\"7000\" cy=\"7750\" r=\"330\"/><text class=\"t\" x=\"8200\" y=\"8200\">first at its join</text>\n",
    ),
    Fixed(
        "<circle class=\"z\" cx=\"20500\" cy=\"7750\" r=\"390\"/><text class=\"t\" x=\"21700\" y=\"8200\">last, goes on</text>\n",
    ),
    Fixed(
        "<path class=\"a\" d=\"M32000 7750h1100\"/><circle class=\"q\" cx=\"32000\" cy=\"7750\" r=\"340\"/>",
    ),
    Fixed(
        "<path class=\"q\" d=\"M33900 7750l-800 -450v900z\"/><text class=\"t\" x=\"34600\" y=\"8200\">theft</text>\n",
    ),
    Fixed(
        "<path class=\"a\" d=\"M40000 7450l600 600m0 -600l-600 600\"/><text class=\"t\" x=\"41200\" y=\"8200\">theft lost</text>\n",
    ),
    Fixed(
        "<path class=\"x\" d=\"M49500 7200l1100 1100m0 -1100l-1100 1100\"/><text class=\"t\" x=\"51200\" y=\"8200\">soft fault</text>\n",
    ),
    Fixed(
        "<path class=\"x\" d=\"M59500 7200l1100 1100m0 -1100l-1100 1100\"/><path class=\"d\" d=\"M60800 7750h1300\"/>",
    ),
    Fixed("<text class=\"t\" x=\"62500\" y=\"8200\">hard fault</text>\n"),
    Fixed(
        "<path class=\"o\" d=\"M71500 7750h1300\"/><circle class=\"r\" cx=\"71500\" cy=\"7750\" r=\"340\"/>",
    ),
    Fixed(
        "<path class=\"r\" d=\"M73400 7750l-800 -450v900z\"/><text class=\"t\" x=\"74100\" y=\"8200\">takeover</text>\n",
    ),
    Fixed("</g>\n</svg>\n"),
];

/// Appends how a procedure is called.
fn push_label(alloc: Global, text: &mut Vec<u8>, name: &ProcedureName) -> Result<(), NoMemory>
    ensures { OnOk result (text.new.items ≡ text.old.items ++ label_text name.now) }
{
    match name {
        ProcedureName::Named(name) => text.extend_from_slice(name.as_bytes())?,
        ProcedureName::EachOf(line) => {
            let parts = [Fixed("each of line "), Number(u64::from(*line))];
            push_markup(alloc, text, &parts)?;
        }
        ProcedureName::Numbered(number) => {
            let parts = [Fixed("proc:"), Number(u64::from(*number))];
            push_markup(alloc, text, &parts)?;
        }
    }
    Ok(())
}

/// Appends a procedure, after a square of its colour.
fn push_label_at(
    alloc: Global,
    text: &mut Vec<u8>,
    number: u64,
    name: &ProcedureName,
) -> Result<(), NoMemory>
    ensures { OnOk result (text.new.items ≡ text.old.items ++ label_at number name.now) }
{
    let parts = [
        Fixed("<tspan class=\"c"),
        Number(number),
        Fixed("\" dx=\"900\">&#9632;</tspan> "),
    ];
    push_markup(alloc, text, &parts)?;
    push_label(alloc, text, name)
}

/// Appends these procedures.
fn push_labels(alloc: Global, text: &mut Vec<u8>, names: &[ProcedureName]) -> Result<(), NoMemory>
    requires { length names.now ≤ 8 }
    ensures { OnOk result (text.new.items ≡ text.old.items ++ labels_from 0 names.now) }
{
    let mut number = 0;
    let mut left = names;
    while let [name, rest @ ..] = left {
        push_label_at(alloc, text, number, name)?;
        number += 1;
        left = rest;
    }
    Ok(())
}

/// Appends the first eight.
fn push_procedures(alloc: Global, text: &mut Vec<u8>, names: &Names) -> Result<(), NoMemory>
    ensures { OnOk result (text.new.items ≡ text.old.items ++ procedures_text names.now) }
{
    let procedures = names.procedures.as_slice();
    let count = 8usize.min(procedures.len());
    push_labels(alloc, text, &procedures[..count])?;
    Ok(())
}

/// Appends the beginning of a legend at a height.
fn push_legend_head(alloc: Global, text: &mut Vec<u8>, y: u64) -> Result<(), NoMemory>
    ensures { OnOk result (text.new.items ≡ text.old.items ++ legend_head y) }
{
    let parts = [
        Fixed("<g transform=\"translate(6400 "),
        Number(y),
        Fixed(")\">\n<text class=\"t\" x=\"-900\" y=\"4000\">"),
    ];
    push_markup(alloc, text, &parts)
}

/// Appends the legend, and the end of the picture. `Err` only where memory is refused.
pub fn push_legend(
    alloc: Global,
    text: &mut Vec<u8>,
    canvas: Canvas,
    names: &Names,
) -> Result<(), NoMemory>
    ensures { OnOk result (text.new.items ≡ text.old.items ++ legend_text canvas names.now) }
{
    push_legend_head(alloc, text, canvas.bottom())?;
    push_procedures(alloc, text, names)?;
    push_markup(alloc, text, &[Fixed("</text>\n")])?;
    push_markup(alloc, text, &KEY)?;
    Ok(())
}
