//! The command `replay`, of a program or of a case: a machine whose processors act as a schedule
//! says, and what is counted in its run.
//! Model: what a schedule says is that of `ppm_choice`, and what it makes of a machine that of
//! `ppm_following`; the answer of a replay is that of `ppm_outcomes` (`specs/Replays` there), and
//! what is counted is of its turns, its words and its schedule (`specs/RunCounts` of `ppm_trace`).
//! Contract: `replay_command` and `replay_case_command` deliver the one answer of a text
//! (`specs/CaseReplays`), and always return. What follows from each status: `specs/ReplayRows`,
//! `specs/CaseReplayRows`. `counted_replay_command` and `counted_replay_case_command` deliver that,
//! and what is counted in the run (`specs/CountedReplays`, `specs/CountedCases`,
//! `specs/CountedReplayRows`, `specs/CountedCaseRows`). With acts and room enough a replay ends, by
//! places or without hard faults (`specs/CompleteReplays`, `specs/ReplayLaws`). These laws have one
//! on replays by places for a premise, which `ppm_top` has from `ppm_takeover`.
//! Stands on `ppm_following`, `ppm_orders`, `ppm_outcomes`, `ppm_trace`, `ppm_progress` and
//! `ppm_answers`; `ppm_top` calls it. The schedules and the counts are this project's.
#![tactic(auto)]

mod complete_replay;
mod count_laws;
mod counted;
mod counted_case;
mod one_counted;
mod one_replay;
mod replay;
mod replay_case;

pub use complete_replay::{replays_complete, replays_of_code_complete};
pub use count_laws::counts_are_as_traced;
pub use counted::counted_replay_command;
pub use counted_case::counted_replay_case_command;
pub use one_counted::{counted_case_replays_have_one_answer, counted_replays_have_one_answer};
pub use one_replay::{case_replays_have_one_answer, replays_have_one_answer};
pub use replay::replay_command;
pub use replay_case::replay_case_command;
