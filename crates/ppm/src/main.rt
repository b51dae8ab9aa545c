//! The program `ppm`: the words of the command line and the standard streams, handed to the top
//! call.
//! Model: a stream is a port before the program and after it; the standard streams are ports that
//! show no bytes.
//! Contract: `program` ends with the number of the status with which the words were answered
//! (`IsAnswered`), whose rows hold (`ProgramRows`), or with that of want of memory, before anything
//! was read (`specs/Ending`). `main` calls it and does nothing else.
//! Stands on `ppm_top`, `ppm_answers` and `ppm_ports`; the system calls it. The statuses are this
//! project's.
#![tactic(auto)]

ghost use Rattle.std.specs.Prelude.{◌≡◌, ◌++◌, IfOk, length};
ghost use Rattle.std.specs.Process.{exit_status};
ghost use Rattle.std.specs.Vec.Iter.{into_iter_items};
ghost use Rattle.ppm_ports.specs.Ports.{port};
ghost use Rattle.ppm_answers.specs.Statuses.{number_of};
ghost use Rattle.ppm_outcomes.specs.Watchers.{watcher_count};
ghost use Rattle.ppm.specs.Ending.{AreWords, EndsWith};

use ppm_answers::{Answer, Status, deliver};
use ppm_ports::{Silent, Sink, Source, StdSink, StdSource};
use ppm_top::{WATCHERS, ppm};
use std::alloc::{AllocError, Global};
use std::env::Args;
use std::io::ErrorKind;
use std::process::ExitCode;
use std::sync::Wait;
use std::thread::Threads;
use std::{env, io};

fn main(rt: HostRuntime) -> ExitCode {
    program(
        &rt,
        rt.alloc(),
        env::args(&rt),
        &mut StdSource::new(rt.stdin()),
        &mut StdSink::new(rt.stdout()),
        &mut StdSink::new(rt.stderr()),
    )
}

/// Does what the words of the command line ask for. Its watchers are silent: they show nothing of
/// what they are told, and never refuse. The exit code is the number of the status. Where memory is
/// refused for the words or the watchers, nothing is read, and the answer is out of memory. A run
/// may never return.
fn program<R: Threads + Wait + Sync, S: Source, K: Sink, E: Sink>(
    rt: &R,
    alloc: Global,
    given: io::Result<Args>,
    source: &mut S,
    out: &mut K,
    err: &mut E,
) -> ExitCode
    ensures { EndsWith given
        (port S.left S.fault_count source.old source.new)
        (port K.written K.fault_count out.old out.new)
        (port E.written E.fault_count err.old err.new) (exit_status result) }
{
    let status = answered(rt, alloc, given, source, out, err);
    ExitCode::from(status.number())
}

/// Answers the words, as a status.
fn answered<R: Threads + Wait + Sync, S: Source, K: Sink, E: Sink>(
    rt: &R,
    alloc: Global,
    given: io::Result<Args>,
    source: &mut S,
    out: &mut K,
    err: &mut E,
) -> Status
    ensures { EndsWith given
        (port S.left S.fault_count source.old source.new)
        (port K.written K.fault_count out.old out.new)
        (port E.written E.fault_count err.old err.new) (number_of result) }
{
    match prepared(alloc, given) {
        Ok((words, mut watch)) => ppm(rt, alloc, &words, source, out, err, &mut watch),
        Err(_) => deliver(alloc, &Answer::NoMemory, out, err),
    }
}

/// The words of the command line, and a watcher for each processor that a run may have.
fn prepared(
    alloc: Global,
    given: io::Result<Args>,
) -> Result<(Vec<String>, Vec<Silent>), AllocError>
    ensures words { IfOk result (λ all. AreWords given all.0.items) }
    ensures watchers { IfOk result (λ all. length all.1.items ≡ watcher_count) }
{
    let words = words_of(alloc, given)?;
    let watch = vec![in alloc; Silent; WATCHERS]?;
    Ok((words, watch))
}

/// The words of the command line, the program's name first. There are none where they are no text.
fn words_of(alloc: Global, given: io::Result<Args>) -> Result<Vec<String>, AllocError>
    ensures words { IfOk result (λ words. AreWords given words.items) }
{
    match given {
        Ok(args) => collected(alloc, args),
        Err(error) if error.kind() == ErrorKind::OutOfMemory => Err(AllocError),
        Err(_) => Ok(Vec::new(alloc)),
    }
}

/// The words in a list, in their order.
fn collected(alloc: Global, args: Args) -> Result<Vec<String>, AllocError>
    ensures words { IfOk result (λ words. words.items ≡ into_iter_items args) }
{
    let mut words = Vec::new(alloc);
    for word in args {
        words.push(word)?;
    }
    Ok(words)
}
