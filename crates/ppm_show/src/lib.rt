//! A saved state in words: how it stands, what each place goes on with, what waits, and the frames.
//! Model: the text is the lines of all addresses (`specs/Lines`); frames and fork blocks have one if
//! they lie on a route or are a branch that isn't over (`specs/Routes`).
//! Contract: `show` gives exactly the text of a state, `saved_names` the names in it, and each fails
//! only where memory is refused.
//! Stands on `ppm_lines`, whose names are those of a trace, and on `ppm_saved`.
//! The text form is this project's.
#![tactic(auto)]

mod block;
mod cell;
mod marks;
mod names;
mod routes;
mod showing;
mod subject;

pub use names::saved_names;
pub use showing::show;
