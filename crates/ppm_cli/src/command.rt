//! What the words of the command line ask for.
ghost use Rattle.std.specs.Prelude.{◌≡◌, IfOk, IfSome};
ghost use Rattle.clap.specs.Words.{found_of, rows_of, subcommand_rows_of};
ghost use Rattle.ppm_cli.specs.Words.{IsInRange, command_in, command_named as named_by};

use crate::capsules::{CapsuleLimit, depth_from, races_from};
use crate::check::check_from;
use crate::code::code_from;
use crate::example::{SelfOptions, self_from};
use crate::explain::{ExplainOptions, ExplainedText, explain_from};
use crate::ram::ram_from;
use crate::replay::{ReplayOptions, ReplaySavedOptions, replay_from};
use crate::resume::{ResumeOptions, resume_from};
use crate::run::{RunOptions, run_from};
use crate::serial::{SerialOptions, serial_from};
use crate::stop::{StopOptions, StopSavedOptions, stop_from};
use crate::strands::{DrawnStrandsOptions, StrandsOptions, strands_from};
use crate::sweep::{SweepOptions, sweep_from};
use crate::trace::{TraceOptions, TraceSavedOptions, trace_from};
use clap::ArgMatches;
use ppm_words::Items;
use std::alloc::{AllocError, Global};

/// What the program is asked for.
#[derive(Debug, Drop)]
pub enum Command {
    /// To run the source that is read, under a plan of faults, of which these are the bytes.
    Run(RunOptions, Items<u8>),
    /// To interpret the source that is read.
    Serial(SerialOptions),
    /// To list the code of the source that is read.
    Code,
    /// To check the listing that is read for conflicts.
    Check,
    /// To check the listing that is read, of a code whose strands may race, for conflicts and gaps.
    CheckRacing,
    /// To replay the source that is read, by a schedule, of which these are the bytes.
    Replay(ReplayOptions, Items<u8>),
    /// To run the program's own example.
    Example(SelfOptions),
    /// To stop the source that is read in mid-run, by a schedule, of which these are the bytes, and
    /// to save the machine's words.
    Stop(StopOptions, Items<u8>),
    /// To go on from the words of the saved text that is read, under a plan of faults, of which
    /// these are the bytes.
    Resume(ResumeOptions, Items<u8>),
    /// To run the code of the case that is read, depth first.
    Depth(CapsuleLimit),
    /// To judge whether the code of the case that is read is sound with its arrays.
    Races(CapsuleLimit),
    /// To run the strands of the case that is read, which may race, by a schedule, of which these
    /// are the bytes.
    Strands(StrandsOptions, Items<u8>),
    /// To run the strands of the case that is read, which may race, by schedules that are drawn.
    DrawnStrands(DrawnStrandsOptions),
    /// To write the case of the source that is read: its arrays and its code.
    CodeCase,
    /// To run the case that is read, under a plan of faults, of which these are the bytes.
    RunCase(RunOptions, Items<u8>),
    /// To replay the case that is read, by a schedule, of which these are the bytes.
    ReplayCase(ReplayOptions, Items<u8>),
    /// To replay the source that is read, by a schedule, of which these are the bytes, and to tell
    /// what is counted in its run.
    CountedReplay(ReplayOptions, Items<u8>),
    /// To replay the case that is read, by a schedule, of which these are the bytes, and to tell
    /// what is counted in its run.
    CountedReplayCase(ReplayOptions, Items<u8>),
    /// To run the source that is read, under a plan of faults, of which these are the bytes, and to
    /// tell what is counted in its run.
    CountedRun(RunOptions, Items<u8>),
    /// To run the case that is read, under a plan of faults, of which these are the bytes, and to
    /// tell what is counted in its run.
    CountedRunCase(RunOptions, Items<u8>),
    /// To go on from the words of the saved text that is read, under a plan of faults, of which
    /// these are the bytes, and to tell what is counted in that run.
    CountedResume(ResumeOptions, Items<u8>),
    /// To stop the case that is read in mid-run, by a schedule, of which these are the bytes, and to
    /// save the machine's words.
    StopCase(StopOptions, Items<u8>),
    /// To run the source that is read by a schedule, of which these are the bytes, and again with
    /// faults, and to compare the ends of all runs.
    Sweep(SweepOptions, Items<u8>),
    /// To run the case that is read by a schedule, of which these are the bytes, and again with
    /// faults, and to compare the ends of all runs.
    SweepCase(SweepOptions, Items<u8>),
    /// To run the RAM of the text that is read, under a plan of faults, of which these are the
    /// bytes.
    Ram(RunOptions, Items<u8>),
    /// To tell the acts of the source that is read along a schedule, of which these are the bytes.
    Trace(TraceOptions, Items<u8>),
    /// To tell the acts of the case that is read along a schedule, of which these are the bytes.
    TraceCase(TraceOptions, Items<u8>),
    /// To tell the state of the saved text that is read.
    Show,
    /// To go on from the words of the saved text that is read, by a schedule, of which these are the
    /// bytes, to stop that run too, and to save the machine's words again.
    StopSaved(StopSavedOptions, Items<u8>),
    /// To go on from the words of the saved text that is read, by a schedule, of which these are the
    /// bytes.
    ReplaySaved(ReplaySavedOptions, Items<u8>),
    /// To go on from the words of the saved text that is read, by a schedule, of which these are the
    /// bytes, and to tell what is counted in that run.
    CountedReplaySaved(ReplaySavedOptions, Items<u8>),
    /// To judge the text that is read, and to explain why it is refused.
    Explain(ExplainedText),
    /// To run the source that is read as `serial` does, and to explain its trap, or why it is refused.
    ExplainTrap(SerialOptions),
    /// To judge a plan or a schedule, of which these are the bytes, and to explain why it is refused.
    ExplainOrders(ExplainOptions, Items<u8>),
    /// To go on from the words of the saved text that is read, by a schedule, of which these are the
    /// bytes, and to tell the acts.
    TraceSaved(TraceSavedOptions, Items<u8>),
}

/// The command of the subcommand that was met, with its options.
pub(crate) fn command_by(
    alloc: Global,
    matches: &ArgMatches<'_>,
) -> Result<Option<Command>, AllocError>
    ensures value { IfOk result (λ c. c ≡ command_in (subcommand_rows_of matches.now)) }
    ensures in_range { IfOk result (λ c. IfSome c IsInRange) }
{
    match matches.subcommand() {
        Some((name, own)) => command_named(alloc, name, own),
        None => Ok(None),
    }
}

/// The command of this name, with the options in its matches.
fn command_named(
    alloc: Global,
    name: &str,
    matches: &ArgMatches<'_>,
) -> Result<Option<Command>, AllocError>
    ensures value { IfOk result (λ c. c ≡ named_by name.now (rows_of (found_of matches.now))) }
    ensures in_range { IfOk result (λ c. IfSome c IsInRange) }
{
    match name {
        "run" => run_from(alloc, matches),
        "serial" => Ok(serial_from(matches)),
        "code" => Ok(code_from(matches)),
        "check" => Ok(check_from(matches)),
        "depth" => Ok(depth_from(matches)),
        "races" => Ok(races_from(matches)),
        "strands" => strands_from(alloc, matches),
        "replay" => replay_from(alloc, matches),
        "self" => Ok(self_from(matches)),
        "stop" => stop_from(alloc, matches),
        "resume" => resume_from(alloc, matches),
        "sweep" => sweep_from(alloc, matches),
        "ram" => ram_from(alloc, matches),
        "trace" => trace_from(alloc, matches),
        "show" => Ok(Some(Command::Show)),
        "explain" => explain_from(alloc, matches),
        _ => Ok(None),
    }
}
