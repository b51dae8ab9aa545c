//! The top call.
ghost use Rattle.std.specs.Prelude.{◌≡◌, length, map};
ghost use Rattle.std.specs.String.{string_bytes};
ghost use Rattle.ppm_ports.specs.Ports.{port};
ghost use Rattle.ppm_ports.specs.Outside.{outside};
ghost use Rattle.ppm_outcomes.specs.Watchers.{watcher_count};
ghost use Rattle.ppm_top.specs.Causes.{IsAnswered};
ghost use Rattle.ppm_top.specs.Rows.{ProgramRows};

use crate::laws::program_laws;
use ppm_answers::{Answer, Status, deliver};
use ppm_cli::{Command, read_words};
use ppm_commands::{
    case_command, check_command, code_command, depth_command, races_command, racing_check_command,
    serial_command, show_command,
};
use ppm_driver::{
    counted_run_case_command, counted_run_command, ram_command, run_case_command, run_command,
    self_command,
};
use ppm_explained::{explain_command, explain_orders_command, explain_trap_command};
use ppm_legs::{
    counted_replay_saved_command, replay_saved_command, stop_saved_command, trace_saved_command,
};
use ppm_ports::{Sink, Source, Watch};
use ppm_replay_command::{
    counted_replay_case_command, counted_replay_command, replay_case_command, replay_command,
};
use ppm_stop_command::{counted_resume_command, resume_command, stop_case_command, stop_command};
use ppm_strands_command::{drawn_strands_command, strands_command};
use ppm_sweep_command::{sweep_case_command, sweep_command};
use ppm_trace_command::{trace_case_command, trace_command};
use ppm_words::NoMemory;
use std::alloc::Global;
use std::sync::Wait;
use std::thread::Threads;

/// Does what the words ask for: the bytes of `source` are read, the texts of the answer are written
/// on `out` and `err`. The first word is the program's name. The watchers of a run's processors are
/// told every turn, and where they park; where one refuses, the answer is out of memory. A run may
/// never return.
pub fn ppm<R: Threads + Wait + Sync, S: Source, K: Sink, E: Sink, W: Watch>(
    rt: &R,
    alloc: Global,
    words: &[String],
    source: &mut S,
    out: &mut K,
    err: &mut E,
    watch: &mut Vec<W>,
) -> Status
    requires { length watch.old.items ≡ watcher_count }

    // An answer that the command's table of causes allows, and its texts.
    ensures answers { IsAnswered (map string_bytes words.now) (outside (port S.left S.fault_count source.old source.new)
        (port K.written K.fault_count out.old out.new) (port E.written E.fault_count err.old err.new)
        (map W.told watch.old.items) (map W.told watch.new.items)) result }

    // What follows from each status.
    ensures rows { ProgramRows (map string_bytes words.now) (outside (port S.left S.fault_count source.old source.new)
        (port K.written K.fault_count out.old out.new) (port E.written E.fault_count err.old err.new)
        (map W.told watch.old.items) (map W.told watch.new.items)) result }

    ensures watchers { length watch.new.items ≡ watcher_count }
{
    // The rows say of each text more than its one answer does, by these laws; the call does nothing.
    program_laws();
    answer_words(rt, alloc, words, source, out, err, watch)
}

/// Does the command that the words give, or answers that they give none.
fn answer_words<R: Threads + Wait + Sync, S: Source, K: Sink, E: Sink, W: Watch>(
    rt: &R,
    alloc: Global,
    words: &[String],
    source: &mut S,
    out: &mut K,
    err: &mut E,
    watch: &mut Vec<W>,
) -> Status
    requires { length watch.old.items ≡ watcher_count }
    ensures answers { IsAnswered (map string_bytes words.now) (outside (port S.left S.fault_count source.old source.new)
        (port K.written K.fault_count out.old out.new) (port E.written E.fault_count err.old err.new)
        (map W.told watch.old.items) (map W.told watch.new.items)) result }
    ensures watchers { length watch.new.items ≡ watcher_count }
{
    match read_words(alloc, words) {
        Ok(Some(Command::Run(options, faults))) => run_command(
            rt,
            alloc,
            options,
            faults.as_slice(),
            source,
            out,
            err,
            watch,
        ),
        Ok(Some(Command::RunCase(options, case_plan))) => run_case_command(
            rt,
            alloc,
            options,
            case_plan.as_slice(),
            source,
            out,
            err,
            watch,
        ),
        Ok(Some(Command::Serial(options))) => serial_command(
            alloc,
            options.turns,
            source,
            out,
            err,
        ),
        Ok(Some(Command::Code)) => code_command(alloc, source, out, err),
        Ok(Some(Command::CodeCase)) => case_command(alloc, source, out, err),
        Ok(Some(Command::Check)) => check_command(alloc, source, out, err),
        Ok(Some(Command::CheckRacing)) => racing_check_command(alloc, source, out, err),
        Ok(Some(Command::Show)) => show_command(alloc, source, out, err),
        Ok(Some(Command::Explain(text))) => explain_command(alloc, text, source, out, err),
        Ok(Some(Command::ExplainTrap(options))) => explain_trap_command(
            alloc,
            options.turns,
            source,
            out,
            err,
        ),
        Ok(Some(Command::ExplainOrders(options, stated))) => explain_orders_command(
            alloc,
            options,
            stated.as_slice(),
            out,
            err,
        ),
        Ok(Some(Command::Depth(limit))) => depth_command(alloc, limit.capsules, source, out, err),
        Ok(Some(Command::Races(limit))) => races_command(alloc, limit.capsules, source, out, err),
        Ok(Some(Command::Strands(options, strands))) => strands_command(
            alloc,
            options,
            strands.as_slice(),
            source,
            out,
            err,
        ),
        Ok(Some(Command::DrawnStrands(options))) => drawn_strands_command(
            alloc, options, source, out, err,
        ),
        Ok(Some(Command::Replay(options, schedule))) => replay_command(
            alloc,
            options,
            schedule.as_slice(),
            source,
            out,
            err,
        ),
        Ok(Some(Command::ReplayCase(options, case_schedule))) => replay_case_command(
            alloc,
            options,
            case_schedule.as_slice(),
            source,
            out,
            err,
        ),
        Ok(Some(Command::CountedReplay(options, counted))) => counted_replay_command(
            alloc,
            options,
            counted.as_slice(),
            source,
            out,
            err,
        ),
        Ok(Some(Command::CountedReplayCase(options, case_counted))) => counted_replay_case_command(
            alloc,
            options,
            case_counted.as_slice(),
            source,
            out,
            err,
        ),
        Ok(Some(Command::CountedRun(options, counted_plan))) => counted_run_command(
            rt,
            alloc,
            options,
            counted_plan.as_slice(),
            source,
            out,
            err,
        ),
        Ok(Some(Command::CountedRunCase(options, case_counted_plan))) => counted_run_case_command(
            rt,
            alloc,
            options,
            case_counted_plan.as_slice(),
            source,
            out,
            err,
        ),
        Ok(Some(Command::CountedResume(options, leg_plan))) => counted_resume_command(
            rt,
            alloc,
            options,
            leg_plan.as_slice(),
            source,
            out,
            err,
        ),
        Ok(Some(Command::Resume(options, plan))) => resume_command(
            rt,
            alloc,
            options,
            plan.as_slice(),
            source,
            out,
            err,
            watch,
        ),
        Ok(Some(Command::Stop(options, acts))) => stop_command(
            alloc,
            options,
            acts.as_slice(),
            source,
            out,
            err,
        ),
        Ok(Some(Command::StopCase(options, case_acts))) => stop_case_command(
            alloc,
            options,
            case_acts.as_slice(),
            source,
            out,
            err,
        ),
        Ok(Some(Command::ReplaySaved(options, leg_acts))) => replay_saved_command(
            alloc,
            options,
            leg_acts.as_slice(),
            source,
            out,
            err,
        ),
        Ok(Some(Command::CountedReplaySaved(options, leg_counted))) => counted_replay_saved_command(
            alloc,
            options,
            leg_counted.as_slice(),
            source,
            out,
            err,
        ),
        Ok(Some(Command::StopSaved(options, more_acts))) => stop_saved_command(
            alloc,
            options,
            more_acts.as_slice(),
            source,
            out,
            err,
        ),
        Ok(Some(Command::TraceSaved(options, told_acts))) => trace_saved_command(
            alloc,
            options,
            told_acts.as_slice(),
            source,
            out,
            err,
        ),
        Ok(Some(Command::Sweep(options, base))) => sweep_command(
            alloc,
            options,
            base.as_slice(),
            source,
            out,
            err,
        ),
        Ok(Some(Command::SweepCase(options, case_base))) => sweep_case_command(
            alloc,
            options,
            case_base.as_slice(),
            source,
            out,
            err,
        ),
        Ok(Some(Command::Trace(options, told))) => trace_command(
            alloc,
            options,
            told.as_slice(),
            source,
            out,
            err,
        ),
        Ok(Some(Command::TraceCase(options, case_told))) => trace_case_command(
            alloc,
            options,
            case_told.as_slice(),
            source,
            out,
            err,
        ),
        Ok(Some(Command::Ram(options, ram_plan))) => ram_command(
            rt,
            alloc,
            options,
            ram_plan.as_slice(),
            source,
            out,
            err,
            watch,
        ),
        Ok(Some(Command::Example(options))) => self_command(rt, alloc, options, out, err, watch),
        Ok(None) => deliver(alloc, &Answer::WordsRefused, out, err),
        Err(NoMemory) => deliver(alloc, &Answer::NoMemory, out, err),
    }
}
