//! The canonical text of a program.
//! Model: the tokens of a tree (`specs/Canonical`), each spelled with one blank after it
//! (`specs/Spelled`).
//! Contract: `print` gives the canonical text, and by the grammar that text has the tree again,
//! lines apart (`specs/Correct`).
//! Stands on `ppm_tree`, `ppm_text` and `ppm_rows`; `ppm_explain` spells words and signs by it.
//! The layout is this project's.
#![tactic(auto)]

mod expression;
mod laws;
mod program;
mod spelling;
mod statement;
mod token;

pub use laws::{canonical_texts_tell_programs, printed_texts_have_their_tree};
pub use program::print;
pub use spelling::{keyword_spelling, sign_spelling};
