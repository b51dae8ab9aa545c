//! The program that tries the cases of the folder data/: each is a call of `ppm` over ports in memory.
//! Model: none; what is wanted stands in the sheets (`ppm_sheets`).
//! Contract: none beyond that of `ppm_top`. The gate runs it and compares what it prints with the file
//! `stdout`, in which all cases of each sheet are as wanted.
//! Stands on `ppm_top` and on `ppm_sheets`; nothing stands on it.
//! The form of a sheet is this project's; `docs/CASES.md` has it.
#![tactic(auto)]

mod top;
mod watcher;

use crate::top::tried;
use ppm_sheets::{Call, judge_sheets};
use std::alloc::Global;
use std::process::ExitCode;
use std::rt::{Env, Files};
use std::sync::Wait;
use std::thread::Threads;

/// Judges the sheets that the command line names by the top call.
fn judge<R: Alloc<A = Global> + Env + Files + Print + Threads + Wait + Sync>(rt: &R) -> ExitCode {
    let alloc = rt.alloc();
    judge_sheets(rt, &|call: &Call| tried(rt, alloc, call))
}

fn main(rt: HostRuntime) -> ExitCode {
    judge(&rt)
}
