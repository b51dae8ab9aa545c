//! A run as a picture, in SVG: a lane for each processor, painted act by act.
//! Model: what is shown of a turn is a function of the machine before it and of the turn
//! (`specs/Strokes`); each act stands in its processor's lane at its number, to scale (`specs/Canvas`).
//! Contract: `stroke_of` answers what is shown of a turn, and each `push_` appends exactly the text
//! that its definition says, and fails only where memory is refused.
//! Stands on `ppm_lines` and `ppm_naming`; `ppm_trace` draws a run by it.
//! The picture is this project's; its form is SVG.
#![tactic(auto)]

mod arrow;
mod canvas;
mod drawing;
mod layer;
mod legend;
mod markup;
mod paint;
mod ruler;
mod sign;
mod stroke;
mod style;

pub use canvas::Canvas;
pub use drawing::{push_dead_lane, push_middle, push_top};
pub use legend::push_legend;
pub use markup::{Markup, push_markup};
pub use paint::Paint;
pub use stroke::{Stroke, stroke_of};
