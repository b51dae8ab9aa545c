//! The program that tries single layers: words, plans, schedules, draws, texts, trees, listings, saved
//! texts and answers, by the cases of the folder data/.
//! Model: none; what is wanted stands in the sheets (`ppm_sheets`).
//! Contract: none beyond those of the layers. The gate runs it and compares what it prints with the
//! file `stdout`, in which all cases of each sheet are as wanted.
//! Stands on the layers and on `ppm_sheets`; nothing stands on it.
//! The form of a sheet is this project's; `docs/CASES.md` has it.
#![tactic(auto)]

mod answers;
mod case_answers;
mod cells;
mod commands;
mod draws;
mod layers;
mod listings;
mod plans;
mod said;
mod steps;
mod sweep_answers;
mod texts;
mod trees;

use crate::layers::tried;
use ppm_sheets::{Call, judge_sheets};
use std::process::ExitCode;

fn main(rt: HostRuntime) -> ExitCode {
    let alloc = rt.alloc();
    judge_sheets(&rt, &|call: &Call| tried(alloc, call))
}
