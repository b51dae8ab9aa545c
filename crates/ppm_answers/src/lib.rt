//! The answers of the program's commands, their texts and statuses, and how they are delivered.
//! Model: an answer has a text for out, a text for err and a status (`specs/Texts`,
//! `specs/Statuses`).
//! Contract: `deliver` writes both texts whole and gives the answer's status, or 8 where a port
//! failed (`specs/Delivery`).
//! Stands on `ppm_ports`, `ppm_cells` and `ppm_words`; each command of `ppm_top` ends with it.
//! The texts and the numbers are this project's.
#![tactic(auto)]

mod answer;
mod case;
mod conflict;
mod counts;
mod delivery;
mod ends;
mod gap;
mod race;
mod ran;
mod refusal;
mod refused;
mod replayed;
mod run_counts;
mod saved;
mod status;
mod strands;
mod sums;
mod sweep;
mod tally;
mod texts;
mod unread;

pub use answer::Answer;
pub use case::{InputRefusal, UntidyStore};
pub use conflict::{Class, Conflict, ListingRefusal};
pub use counts::Counts;
pub use delivery::deliver;
pub use gap::{Gap, Hung, LeftOut, OtherBlock, Unbuilt};
pub use race::{Opener, Race, Touch, Touching, Visit};
pub use ran::Ran;
pub use refusal::{Pass, Refusal};
pub use refused::Refused;
pub use run_counts::RunCounts;
pub use saved::SavedRefusal;
pub use status::Status;
pub use sums::Sums;
pub use sweep::{Came, Difference, Sweep};
pub use tally::Tally;
pub use unread::answer_of_read;
