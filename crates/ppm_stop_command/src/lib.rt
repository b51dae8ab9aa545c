//! The commands `stop` and `resume`: one saves the state of a machine after some acts of a schedule,
//! the other lets fresh processors, each a thread, go on from a saved state.
//! Model: the text of a state is that of `ppm_saved`; what `stop` and `resume` answer, and which
//! states a code leaves, are those of `ppm_outcomes` (`specs/Stops`, `specs/Resumes` and
//! `specs/CodeResumes` there).
//! Contract: `stop_command` and `stop_case_command` deliver the saved text of the machine after
//! exactly the run of the schedule (`specs/CaseStops`), and always return. `resume_command`, if it
//! returns, delivers an answer of a run from the state that was read, in which each fresh processor
//! obeys, of which its watcher was told. What follows from each status: `specs/StopRows`,
//! `specs/CaseStopRows`, `specs/ResumeRows`, `specs/CodeResumeRows`. `counted_resume_command` delivers
//! that and what is counted in the run, to no watcher (`specs/CountedResumeRows`). What is stopped and resumed
//! ends as its program does, or as its sound case (`specs/Stopped`, `specs/CaseStopped`).
//! Stands on `ppm_threads`, `ppm_following`, `ppm_saved`, `ppm_saved_reader`, `ppm_orders`,
//! `ppm_outcomes` and `ppm_answers`; `ppm_top` calls it. Both come after the persistent memory of
//! Blelloch et al., SPAA 2018, which outlives its processors.
#![tactic(auto)]

mod counted_resume;
mod fronts;
mod one_stop;
mod resuming;
mod states;
mod stop;
mod stop_case;
mod stopped;

pub use counted_resume::counted_resume_command;
pub use fronts::fronts_decide_resumed;
pub use one_stop::{case_stops_have_one_answer, stops_have_one_answer};
pub use resuming::resume_command;
pub use states::{resumes_leave_states, runs_leave_states, stops_leave_states};
pub use stop::stop_command;
pub use stop_case::stop_case_command;
pub use stopped::{runs_of_code_complete_in_legs, stopped_cases_go_on, stopped_runs_go_on};
