//! What is said of a source that is refused: its place, the line with a mark, what stands there and
//! what could stand there, the names of a line, and what the refusal means.
//! Model: a message is a function of the text, its tokens and its refusal (`specs/Sources`), by
//! lines and columns (`specs/Places`), names (`specs/Names`) and tables of words (`specs/Words`,
//! `specs/Hints`, `specs/Meanings`).
//! Contract: `source_notes` answers exactly that function; what could stand at a place is just what
//! some text of the grammar has there.
//! Stands on `ppm_text`, `ppm_expected` and `ppm_printer`; `ppm_notes` and `ppm_explained` call it.
//! After the messages of compilers with a mark under the place; their words are this project's.
#![tactic(auto)]

mod bounds;
mod declaring;
mod fault;
mod hints;
mod lending;
mod meaning;
mod names;
mod place;
mod source;
mod words;

pub use declaring::Before;
pub use place::{
    is_last_line, line_bytes, push_line, push_mark, push_marked, push_shown, push_spot,
};
pub use source::source_notes;
pub use words::{push_quoted, push_word};
