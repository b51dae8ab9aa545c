//! What runs, replays and legs of a machine come to: the answer after one, and the laws that it is
//! the outcome of the code, run depth first, and of the program, run serially.
//! Model: a run is turns in which each processor obeys (`specs/RunOf`, `specs/Runs`), a replay the
//! turns of a schedule (`specs/Replays`); a run in legs is turns, the words after them that came
//! back, turns of fresh processors, and so on (`specs/Legs`). What watchers were told:
//! `specs/Watchers`; the text that `stop` writes and the state that `resume` reads: `specs/Stops`,
//! `specs/Resumes`.
//! Contract: the laws of runs are of each sound code on an input, whoever wrote it (`specs/AsCode`,
//! `specs/CodeReplays`, `specs/LegsAsCode`), and of a text's program as an instance (`specs/Meant`,
//! `specs/ProgramsAsCode`). No more faults strike than a plan has (`specs/Strikes`). Where turns and
//! room are enough, a resumed run ends (`specs/ResumeCompleteness`, `specs/ResumeLaws`).
//! `run_answer`, `resumed_answer`, `replay_answer` and `replay_came` tell what the finish word says;
//! where what is counted in a run is told (`specs/CountedRuns`, `specs/RunCounts`), `run_came`,
//! `resumed_came` and `run_counts` do.
//! Stands on `ppm_runs`, `ppm_opening`, `ppm_cut_correct`, `ppm_threads`, `ppm_following` and
//! `ppm_loading`; the crates of the commands that run a machine stand on it. Legs come after the
//! persistent memory of Blelloch et al., SPAA 2018, which outlives its processors.
#![tactic(auto)]

mod complete_resume;
mod counting;
mod legs;
mod meant;
mod names;
mod saying;

pub use complete_resume::{resume_laws, resumes_complete};
pub use counting::run_counts;
pub use legs::{left_words_come_back, runs_in_legs_are_as_code, runs_in_legs_are_as_programs};
pub use meant::{
    programs_are_as_code, replays_are_as_code, runs_are_as_code, runs_are_as_programs,
};
pub use names::{arrays_of_names, names_of};
pub use saying::{replay_answer, replay_came, resumed_answer, resumed_came, run_answer, run_came};
