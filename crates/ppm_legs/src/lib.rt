//! The commands `stop`, `replay` and `trace` of a saved text: fresh processors make one leg more, as
//! a schedule says.
//! Model: a leg is the acts of a schedule, at most so many, from the words that fresh processors find
//! of a state (`specs/SavedTexts`).
//! Contract: `stop_saved_command` delivers the saved text of the machine after that leg
//! (`specs/SavedStops`), `replay_saved_command` what it comes to (`specs/SavedReplays`),
//! `counted_replay_saved_command` that and what is counted in the leg (`specs/CountedReplays`), and
//! `trace_saved_command` its trace (`specs/SavedTraces`); each is the one answer of a text, and each
//! call returns. What follows from each status, also of the code that left the state:
//! `specs/SavedStopRows`, `specs/SavedReplayRows`, `specs/CountedReplayRows`, `specs/SavedTraceRows`.
//! Stops that go on from stops leave states of the code (`specs/Chains`).
//! Stands on `ppm_following`, `ppm_trace`, `ppm_show`, `ppm_saved`, `ppm_saved_reader`, `ppm_orders`,
//! `ppm_outcomes` and `ppm_answers`; `ppm_top` calls it. Legs come after the persistent memory of
//! Blelloch et al., SPAA 2018, which outlives its processors.
#![tactic(auto)]

mod chains;
mod counted_saved;
mod leg;
mod replay_saved;
mod saved_answers;
mod saved_reading;
mod stop_saved;
mod trace_saved;

pub use chains::stops_go_on_chains;
pub use counted_saved::counted_replay_saved_command;
pub use replay_saved::replay_saved_command;
pub use saved_answers::{
    counted_saved_replays_have_one_answer, saved_replays_have_one_answer,
    saved_stops_have_one_answer, saved_traces_have_one_answer,
};
pub use stop_saved::stop_saved_command;
pub use trace_saved::trace_saved_command;
