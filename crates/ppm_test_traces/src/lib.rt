//! Traces beside the replays of the same schedules, by the fields of their lines alone.
//! Model: none; all of it is tests.
//! Contract: none.
//! Stands on `ppm_top`. What is read of a trace is read by this crate's own reader (`src/lines.rt`),
//! which knows no machine.
//! After the form of traces in docs/TRACE.md; `trials/traces` looks at all examples in this way.
#![tactic(auto)]

#[cfg(test)]
mod calls;
#[cfg(test)]
mod lines;
#[cfg(test)]
mod traces;
