//! The step of the machine: what a processor does next, and what comes of it.
//! Model: where a processor stands (`specs/Standings`), within a row as data (`specs/Rows`) or a
//! capsule of a frame (`specs/Frames`).
//! Contract: `want` is the word step that comes next, and `observe` goes on with what it found,
//! exactly as the rows say.
//! Stands on `ppm_cells` and `ppm_code`; `ppm_core` makes its
//! steps on a machine's words.
//! After the parallel persistent memory of Blelloch et al., SPAA 2018; the rows are this project's.
#![tactic(auto)]

mod ask;
mod bid;
mod closed;
mod content;
mod entries;
mod found;
mod frame;
mod going;
mod join;
mod laws;
mod local;
mod pop;
mod push;
mod rest;
mod row;
mod running;
mod seek;
mod stages;
mod standing;
mod steal;
mod there;
mod turn;
mod unwind;

pub use ask::Want;
pub use content::{Content, Reading};
pub use frame::{Home, Put};
pub use going::Going;
pub use laws::{done_has_cause, finish_stays, records_lead, room_has_cause, turns_have_cause};
pub use local::{Local, Stand};
pub use row::{Point, Row, Seat, Then};
pub use running::{Running, Stage};
pub use stages::location_is_there;
pub use standing::{entered, header_of};
pub use there::{address, cell_is_there, restart_there, restart_word};
pub use turn::{Act, Next, Told, Turn, Why};
