//! Which act comes next: of a processor, by what it has done, a fault plan and limits; of a machine,
//! by a schedule.
//! Model: the acts of one processor in a run (`specs/Deeds`), and when these obey a plan and limits
//! (`specs/Obeying`); what a schedule says is a list of acts that are due (`specs/Schedules`,
//! `specs/Course`).
//! Contract: `choose` answers exactly the act that obeys, or that the processor rests; a pace keeps
//! what that takes to know. Laws of each run of a schedule: `specs/ScheduleLaws`.
//! Stands on `ppm_step` and `ppm_plan`; whoever drives processors stands on it.
//! The limits, the schedules and their rules are this project's.
#![tactic(auto)]

mod choosing;
mod clear;
mod laws;
mod limits;
mod next;
mod pace;
mod schedule_laws;

pub use choosing::{Choice, act_of_fault, choose};
pub use clear::clear_steps;
pub use laws::{has_one_run, runs_finish, tells_where_it_parks};
pub use limits::Limits;
pub use next::{is_over, next_act};
pub use pace::Pace;
pub use ppm_words::Idle;
pub use schedule_laws::{
    schedules_go_on, schedules_keep_order, schedules_skip_done, unfinished_is_exact,
};
