//! The command `trace`, of a program or of a case: each act of the run that a schedule says is told.
//! Model: what is told of turns is that of `ppm_trace`; by which names of arrays and procedures:
//! `specs/TraceNames`.
//! Contract: `trace_command` and `trace_case_command` deliver the one answer of a text, the trace of
//! exactly the run of the schedule (`specs/Traces`, `specs/CaseTraces`), and always return. What
//! follows from each status: `specs/TraceRows`, `specs/CaseTraceRows`.
//! Stands on `ppm_trace`, `ppm_naming`, `ppm_orders`, `ppm_loading` and `ppm_answers`; `ppm_top`
//! calls it. Traces are this project's.
#![tactic(auto)]

mod one_trace;
mod trace;
mod trace_case;
mod trace_names;

pub use one_trace::{case_traces_have_one_answer, traces_have_one_answer};
pub use trace::trace_command;
pub use trace_case::trace_case_command;
