//! The command `resume` where what is counted in its run is told.
ghost use Rattle.std.specs.Prelude.{◌≡◌, ◌≢◌, IfOk, None};
ghost use Rattle.ppm_ports.specs.Ports.{port};
ghost use Rattle.ppm_ports.specs.Outside.{ports};
ghost use Rattle.ppm_answers.specs.Reading.{TextMay};
ghost use Rattle.ppm_cells.specs.Finish.{finish_of};
ghost use Rattle.ppm_loading.specs.Programs.{ProgramMay};
ghost use Rattle.ppm_outcomes.specs.CountedResumes.{CountedResumeMay, ItemsHave, StateHas, TextHas};
ghost use Rattle.ppm_outcomes.specs.Resumes.{saved_finish, state_of};
ghost use Rattle.ppm_stop_command.specs.CountedResumeRows.{IsCountedResume};

use crate::resuming::{limits_of, refused_answer};
use ppm_answers::{Answer, SavedRefusal, Status, answer_of_read, deliver};
use ppm_cells::UNKNOWN_PLACE;
use ppm_cli::ResumeOptions;
use ppm_loading::refusal_answer;
use ppm_outcomes::{resume_laws, resumed_came, run_counts};
use ppm_plan::{Plan, read_plan};
use ppm_ports::{Silent, Sink, Source, read_whole};
use ppm_saved::{Renewed, Saved, renew};
use ppm_saved_reader::{SAVED_LIMIT, read_saved};
use ppm_table::Shared;
use ppm_threads::drive_counted;
use ppm_words::{NoMemory, PROCESSOR_LIMIT};
use std::alloc::Global;
use std::sync::Wait;
use std::thread::Threads;

/// Goes on from the saved state whose text is read, with fresh processors, each a thread, that obey
/// the plan of faults and the limits of the options: its arrays or its trap, and what was counted in
/// this run, are written on `out`; why there are no arrays, and what was counted, on `err`. Each
/// step of a processor is a turn of its own then. The plan is judged for as many processors as the
/// state has. It may never return.
pub fn counted_resume_command<R: Threads + Wait + Sync, S: Source, K: Sink, E: Sink>(
    rt: &R,
    alloc: Global,
    options: ResumeOptions,
    faults: &[u8],
    source: &mut S,
    out: &mut K,
    err: &mut E,
) -> Status
    // An answer that the command's causes allow is delivered, and its rows hold.
    ensures { IsCountedResume options faults.now (ports (port S.left S.fault_count source.old source.new)
        (port K.written K.fault_count out.old out.new) (port E.written E.fault_count err.old err.new)) result }
{
    // The rows rest on these laws; the call does nothing.
    resume_laws();
    let answer = read_answer(rt, alloc, options, faults, source);
    deliver(alloc, &answer, out, err)
}

/// The answer of such a `resume`: what is read, to its end or one byte past the limit of a saved
/// text, is judged, and then the plan.
fn read_answer<R: Threads + Wait + Sync, S: Source>(
    rt: &R,
    alloc: Global,
    options: ResumeOptions,
    faults: &[u8],
    source: &mut S,
) -> Answer
    ensures { CountedResumeMay options faults.now (port S.left S.fault_count source.old source.new) result }
{
    match read_whole(alloc, source, SAVED_LIMIT) {
        Ok(text) => text_answer(rt, alloc, options, faults, text),
        Err(error) => answer_of_read(error),
    }
}

/// What is answered of a text. It is let go of before the run.
fn text_answer<R: Threads + Wait + Sync>(
    rt: &R,
    alloc: Global,
    options: ResumeOptions,
    faults: &[u8],
    text: Vec<u8>,
) -> Answer
    ensures { TextMay (TextHas options faults.now) text.items result }
{
    if text.len() > SAVED_LIMIT {
        return Answer::SavedRefused(SavedRefusal { number: 1, line: 1 });
    }
    match read_saved(alloc, &text) {
        Ok(saved) => {
            drop(text);
            state_answer(rt, alloc, options, faults, saved)
        }
        Err(error) => refused_answer(error),
    }
}

/// What is answered of a state: the plan is judged for its processors.
fn state_answer<R: Threads + Wait + Sync>(
    rt: &R,
    alloc: Global,
    options: ResumeOptions,
    faults: &[u8],
    saved: Saved,
) -> Answer
    ensures { ProgramMay (StateHas options faults.now (state_of saved)) result }
{
    match read_plan(alloc, faults, saved.shape.processors) {
        Ok(plan) => planned_answer(rt, alloc, options, &plan, saved),
        Err(error) => refusal_answer(error),
    }
}

/// What is answered of a state by a plan: that its finish word stands for nothing, what the run from
/// it comes to and what is counted in it, or want of memory.
fn planned_answer<R: Threads + Wait + Sync>(
    rt: &R,
    alloc: Global,
    options: ResumeOptions,
    plan: &Plan,
    saved: Saved,
) -> Answer
    requires processors { plan.now.processors ≡ saved.shape.processors }
    ensures { ProgramMay (ItemsHave options plan.now.items (state_of saved)) result }
{
    if saved.finish().is_none() {
        return Answer::Broken(UNKNOWN_PLACE);
    }
    match resumed(rt, alloc, options, plan, saved) {
        Ok(answer) => answer,
        Err(NoMemory) => Answer::NoMemory,
    }
}

/// What the run from a state comes to, and what is counted in it.
fn resumed<R: Threads + Wait + Sync>(
    rt: &R,
    alloc: Global,
    options: ResumeOptions,
    plan: &Plan,
    saved: Saved,
) -> Result<Answer, NoMemory>
    requires stands { finish_of (saved_finish (state_of saved)) ≢ None }
    requires processors { plan.now.processors ≡ saved.shape.processors }
    ensures { IfOk result (ProgramMay (ItemsHave options plan.now.items (state_of saved))) }
{
    let Renewed { image, code, names } = renew(saved, plan.keeper());
    let table = Shared::load_to_count(alloc, image, code, true)?;
    let (shared, processors) = table;
    // What the type of its code keeps is known once its parts were seen.
    let _ = shared.code.parts();
    let mut silent = vec![in alloc; Silent; PROCESSOR_LIMIT as usize]?;
    let driven = drive_counted(
        rt,
        alloc,
        shared,
        processors,
        plan,
        limits_of(options),
        &mut silent,
    )?;
    let (closed, acts) = driven;
    let ran = resumed_came(alloc, &closed, &names)?;
    let counts = run_counts(acts, plan.items(), &closed);
    Ok(Answer::RanWith(ran, counts))
}
