//! The program of the trials: it does what `ppm` does, with watchers that count, and after a run it
//! says on err what its processors met.
//! Model: none; each count is of events that are told (`Counts`).
//! Contract: none beyond those of what it calls. It is a tool for `trials/storm`.
//! Stands on `ppm_top`; nothing stands on it.
//! After the steals and takeovers of Blelloch et al., SPAA 2018; its words are this project's.
#![tactic(auto)]

mod counts;
mod watchers;

use crate::counts::Counts;
use crate::watchers::watchers_of;
use ppm_answers::Status;
use ppm_ports::{StdSink, StdSource};
use ppm_top::{WATCHERS, ppm};
use ppm_words::NoMemory;
use std::alloc::Global;
use std::env;
use std::env::Args;
use std::process::ExitCode;

fn main(rt: HostRuntime) -> ExitCode {
    let alloc = rt.alloc();
    let mut source = StdSource::new(rt.stdin());
    let mut out = StdSink::new(rt.stdout());
    let mut err = StdSink::new(rt.stderr());
    let Ok(words) = words_of(alloc, env::args(&rt)) else {
        return ExitCode::from(Status::NoMemory.number());
    };
    let Ok((mut watch, counted)) = watchers_of(alloc, &words) else {
        return ExitCode::from(Status::NoMemory.number());
    };
    if watch.len() != WATCHERS {
        return ExitCode::from(Status::NoMemory.number());
    }
    let status = ppm(
        &rt,
        alloc,
        &words,
        &mut source,
        &mut out,
        &mut err,
        &mut watch,
    );
    if counted {
        let all = Counts::of_all(&watch);
        // A failed write changes nothing of the status.
        let _ = eprintln!(rt; "{all}");
    }
    ExitCode::from(status.number())
}

/// The words of the command line, the program's name as the first one.
fn words_of(alloc: Global, given: std::io::Result<Args>) -> Result<Vec<String>, NoMemory> {
    let mut words = Vec::new(alloc);
    if let Ok(args) = given {
        for word in args {
            words.push(word)?;
        }
    }
    Ok(words)
}
