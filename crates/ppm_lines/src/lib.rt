//! A turn as a line of text, and as events for a viewer of traces: who acts, where it stands, what
//! it does there, what comes of it, and the marks of what a reader of a run looks for.
//! Model: both are told from the names of the source, the machine's words before the turn, and where
//! the processor stands (`specs/Line`, `specs/Events`); how a word is called, its row tells
//! (`specs/Parts`). A turn has the marks of a table by the kind of its row, what the row's next step
//! is, and whether an exchange is made (`specs/Marks`).
//! Contract: `push_line` appends exactly the line of the turn, `push_events` its events, and each
//! fails only where memory is refused. `marks_at` gives exactly the marks of a turn, `is_shown_at`
//! whether a reader is shown it; no mark needs where the processor stands after the turn. `Form` says
//! in which form a run is told.
//! Stands on `ppm_naming` and `ppm_step`; `ppm_trace` writes a run by it.
//! The text form and the words of the marks are this project's; the events are those of the trace event format, in JSON.
#![tactic(auto)]

mod column;
mod doing;
mod edge;
mod event;
mod flow;
mod form;
mod json;
mod line;
mod mark;
mod marking;
mod name;
mod part;
mod place;
mod scene;
mod shown;
mod value;

pub use column::fill;
pub use doing::{Doing, doing_of, push_of_row};
pub use edge::{Edge, edge_of};
pub use event::{Moment, push_begun, push_events};
pub use flow::Flow;
pub use form::Form;
pub use json::{push_json_head, push_json_tail};
pub use line::push_line;
pub use mark::{Mark, Marks, push_marks};
pub use marking::marks_at;
pub use name::{push_branch, push_fork, push_frame, push_place, push_run};
pub use part::{ForkPart, FramePart, Part};
pub use scene::Scene;
pub use shown::{Only, is_shown_at};
