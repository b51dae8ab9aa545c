//! Commands that let processors, each a thread, obey a plan of faults and limits: `run` a program or
//! a case, `ram` the RAM of a text, `self` a source of its own.
//! Model: obedience is that of `ppm_choice`, and what the threads make of a table that of
//! `ppm_threads`; the run that an answer is of, and what watchers were told of it, are those of
//! `ppm_outcomes`.
//! Contract: `run_command`, if it returns, delivers one answer that the text has: that of a run in
//! which each processor obeys, of which its watcher was told; `self_command` tells sums of such an
//! answer (`specs/Examples`). What follows from each status: `specs/RunRows`, `specs/Headline`,
//! `specs/ExampleRows`; where turns and room are enough, a run ends (`runs_complete`,
//! `runs_of_code_complete`). `run_case_command` runs the case that is read, sound or not
//! (`specs/CaseRuns`); what follows: `specs/CaseHeadline`, `specs/CaseRows`. `ram_command` runs the
//! code of the RAM that is read (`specs/RamRuns`), and it ends as the RAM does (`specs/RamEnds`);
//! what follows from each status: `specs/RamHeadline` and `specs/RamRows`.
//! `counted_run_command` and `counted_run_case_command` deliver what `run_command` and
//! `run_case_command` do, and what is counted in the run; they have no watchers
//! (`specs/CountedRunRows`, `specs/CountedCaseRuns`, `specs/CountedRunCaseRows`).
//! Stands on `ppm_threads`, `ppm_orders`, `ppm_outcomes`, `ppm_ram_code`, `ppm_example` and
//! `ppm_answers`; `ppm_top` calls it. The commands and the limits are this project's.
#![tactic(auto)]

mod as_code;
mod complete;
mod counted_run;
mod counted_run_case;
mod example;
mod one_case;
mod one_counted_run;
mod one_ram;
mod one_run;
mod ram;
mod run;
mod run_case;
mod sums;

pub use as_code::{answers_are_as_code, answers_are_as_rams};
pub use complete::{runs_complete, runs_of_code_complete};
pub use counted_run::counted_run_command;
pub use counted_run_case::counted_run_case_command;
pub use example::self_command;
pub use one_case::case_answers_are_one;
pub use one_counted_run::{counted_answers_are_one, counted_case_answers_are_one};
pub use one_ram::ram_answers_are_one;
pub use one_run::answers_are_one;
pub use ram::ram_command;
pub use run::{WATCHERS, run_command};
pub use run_case::run_case_command;
pub use sums::examples_sum_up;
