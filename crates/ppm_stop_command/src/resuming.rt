//! The command `resume`.
ghost use Rattle.std.specs.Prelude.{◌≡◌, ◌≢◌, IfErr, IfOk, None, length, map};
ghost use Rattle.ppm_ports.specs.Ports.{port};
ghost use Rattle.ppm_ports.specs.Outside.{KeepFronts, outside};
ghost use Rattle.ppm_answers.specs.Reading.{Answers, TextMay};
ghost use Rattle.ppm_cells.specs.Finish.{finish_of};
ghost use Rattle.ppm_loading.specs.Programs.{ProgramMay};
ghost use Rattle.ppm_outcomes.specs.Resumes.{ItemsHave, ItemsWant, ResumeMay, ResumeTells, ResumedHas, StateHas, StateWants};
ghost use Rattle.ppm_outcomes.specs.Resumes.{TextHas, TextTells, limits_of as limits_in, refusal_of, saved_finish, state_of};
ghost use Rattle.ppm_stop_command.specs.ResumeRows.{ResumeRows};
ghost use Rattle.ppm_outcomes.specs.Runs.{RunTold};
ghost use Rattle.ppm_outcomes.specs.Watchers.{OthersKeep, watcher_count};

use ppm_answers::{Answer, SavedRefusal, Status, answer_of_read, deliver};
use ppm_cells::UNKNOWN_PLACE;
use ppm_choice::Limits;
use ppm_cli::ResumeOptions;
use ppm_loading::refusal_answer;
use ppm_outcomes::{resume_laws, resumed_answer};
use ppm_plan::{Plan, read_plan};
use ppm_ports::{Sink, Source, Watch, read_whole};
use ppm_saved::{Renewed, Saved, renew};
use ppm_saved_reader::{SAVED_LIMIT, SavedError, read_saved};
use ppm_table::Shared;
use ppm_threads::drive;
use ppm_words::{Idle, NoMemory};
use std::alloc::Global;
use std::sync::Wait;
use std::thread::Threads;

/// Goes on from the saved state whose text is read, with fresh processors, each a thread, that obey
/// the plan of faults and the limits of the options: its arrays or its trap are written on `out`, why
/// there are none on `err`. The plan is judged for as many processors as the state has. It may never
/// return. There is a watcher for each of 64 processors; those of the state's processors are told
/// every turn. Where one refuses, the answer is out of memory.
pub fn resume_command<R: Threads + Wait + Sync, S: Source, K: Sink, E: Sink, W: Watch>(
    rt: &R,
    alloc: Global,
    options: ResumeOptions,
    faults: &[u8],
    source: &mut S,
    out: &mut K,
    err: &mut E,
    watch: &mut Vec<W>,
) -> Status
    requires watchers { length watch.old.items ≡ watcher_count }

    // An answer that the command's causes allow, and its texts. After a run each processor's watcher
    // was told its turns. Where the text or the plan is refused nobody was told anything. Where
    // memory is wanting, or a watcher refused, either nobody was told anything, or the lists are
    // those of one run: up to where watchers refused, or whole. The other watchers are told nothing.
    ensures answers { let o = outside (port S.left S.fault_count source.old source.new)
        (port K.written K.fault_count out.old out.new) (port E.written E.fault_count err.old err.new)
        (map W.told watch.old.items) (map W.told watch.new.items)
        in Answers (ResumeMay options faults.now o.told_before o.told_now o.source) (ResumeTells options faults.now o.source) o result }

    // What follows from each status.
    ensures rows { ResumeRows options faults.now (outside (port S.left S.fault_count source.old source.new)
        (port K.written K.fault_count out.old out.new) (port E.written E.fault_count err.old err.new)
        (map W.told watch.old.items) (map W.told watch.new.items)) result }

    ensures watchers { length watch.new.items ≡ watcher_count }
{
    // The rows rest on these laws; the call does nothing.
    resume_laws();
    let answer = read_answer(rt, alloc, options, faults, source, watch);
    deliver(alloc, &answer, out, err)
}

/// The answer of `resume`: what is read, to its end or one byte past the limit of a saved text, is
/// judged, and then the plan.
fn read_answer<R: Threads + Wait + Sync, S: Source, W: Watch>(
    rt: &R,
    alloc: Global,
    options: ResumeOptions,
    faults: &[u8],
    source: &mut S,
    watch: &mut Vec<W>,
) -> Answer
    requires watchers { length watch.old.items ≡ watcher_count }
    ensures may { ResumeMay options faults.now (map W.told watch.old.items) (map W.told watch.new.items)
        (port S.left S.fault_count source.old source.new) result }
    ensures told { ResumeTells options faults.now (port S.left S.fault_count source.old source.new) result
        (map W.told watch.old.items) (map W.told watch.new.items) }
    ensures kept { KeepFronts (map W.told watch.old.items) (map W.told watch.new.items) }
    ensures watchers { length watch.new.items ≡ watcher_count }
{
    match read_whole(alloc, source, SAVED_LIMIT) {
        Ok(text) => text_answer(rt, alloc, options, faults, text, watch),
        Err(error) => answer_of_read(error),
    }
}

/// What is answered of a text. It is let go of before the run.
fn text_answer<R: Threads + Wait + Sync, W: Watch>(
    rt: &R,
    alloc: Global,
    options: ResumeOptions,
    faults: &[u8],
    text: Vec<u8>,
    watch: &mut Vec<W>,
) -> Answer
    requires watchers { length watch.old.items ≡ watcher_count }
    ensures may { TextMay (TextHas options faults.now (map W.told watch.old.items) (map W.told watch.new.items)) text.items result }
    ensures told { TextTells options faults.now text.items result (map W.told watch.old.items) (map W.told watch.new.items) }
    ensures kept { KeepFronts (map W.told watch.old.items) (map W.told watch.new.items) }
    ensures watchers { length watch.new.items ≡ watcher_count }
{
    if text.len() > SAVED_LIMIT {
        return Answer::SavedRefused(SavedRefusal { number: 1, line: 1 });
    }
    match read_saved(alloc, &text) {
        Ok(saved) => {
            drop(text);
            state_answer(rt, alloc, options, faults, saved, watch)
        }
        Err(error) => refused_answer(error),
    }
}

/// What is answered where a text is that of no state, or memory was refused.
pub(crate) fn refused_answer(error: SavedError) -> Answer
    ensures { result ≡ refusal_of error }
{
    match error {
        SavedError::NoMemory => Answer::NoMemory,
        SavedError::NoSuchForm(_)
        | SavedError::OutOfRange(_)
        | SavedError::BadListing(_)
        | SavedError::BadCode(_)
        | SavedError::WrongCount(_) => Answer::SavedRefused(SavedRefusal {
            number: error.number(),
            line: error.line(),
        }),
    }
}

/// What is answered of a state: the plan is judged for its processors.
fn state_answer<R: Threads + Wait + Sync, W: Watch>(
    rt: &R,
    alloc: Global,
    options: ResumeOptions,
    faults: &[u8],
    saved: Saved,
    watch: &mut Vec<W>,
) -> Answer
    requires watchers { length watch.old.items ≡ watcher_count }
    ensures may { ProgramMay (StateHas options faults.now (map W.told watch.old.items) (map W.told watch.new.items) (state_of saved)) result }
    ensures told { RunTold saved.shape.processors (StateWants options faults.now (map W.told watch.old.items)
        (map W.told watch.new.items) (state_of saved)) result (map W.told watch.old.items) (map W.told watch.new.items) }
    ensures kept { KeepFronts (map W.told watch.old.items) (map W.told watch.new.items) }
    ensures watchers { length watch.new.items ≡ watcher_count }
{
    match read_plan(alloc, faults, saved.shape.processors) {
        Ok(plan) => planned_answer(rt, alloc, options, &plan, saved, watch),
        Err(error) => refusal_answer(error),
    }
}

/// What is answered of a state by a plan: that its finish word stands for nothing, what the run from
/// it comes to, or want of memory.
fn planned_answer<R: Threads + Wait + Sync, W: Watch>(
    rt: &R,
    alloc: Global,
    options: ResumeOptions,
    plan: &Plan,
    saved: Saved,
    watch: &mut Vec<W>,
) -> Answer
    requires processors { plan.now.processors ≡ saved.shape.processors }
    requires watchers { length watch.old.items ≡ watcher_count }
    ensures may { ProgramMay (ItemsHave options (map W.told watch.old.items) (map W.told watch.new.items) plan.now.items (state_of saved))
        result }
    ensures told { RunTold saved.shape.processors (ItemsWant options (map W.told watch.old.items) (map W.told watch.new.items)
        plan.now.items (state_of saved)) result (map W.told watch.old.items) (map W.told watch.new.items) }
    ensures kept { KeepFronts (map W.told watch.old.items) (map W.told watch.new.items) }
    ensures watchers { length watch.new.items ≡ watcher_count }
{
    if saved.finish().is_none() {
        return Answer::Broken(UNKNOWN_PLACE);
    }
    match resumed(rt, alloc, options, plan, saved, watch) {
        Ok(answer) => answer,
        Err(NoMemory) => Answer::NoMemory,
    }
}

/// What the run from a state comes to.
fn resumed<R: Threads + Wait + Sync, W: Watch>(
    rt: &R,
    alloc: Global,
    options: ResumeOptions,
    plan: &Plan,
    saved: Saved,
    watch: &mut Vec<W>,
) -> Result<Answer, NoMemory>
    requires stands { finish_of (saved_finish (state_of saved)) ≢ None }
    requires processors { plan.now.processors ≡ saved.shape.processors }
    requires watchers { length watch.old.items ≡ watcher_count }
    ensures has { IfOk result (ResumedHas options (map W.told watch.old.items) (map W.told watch.new.items) plan.now.items (state_of saved)) }
    ensures wants { IfErr result (λ _. ItemsWant options (map W.told watch.old.items) (map W.told watch.new.items)
        plan.now.items (state_of saved)) }
    ensures others { OthersKeep saved.shape.processors (map W.told watch.old.items) (map W.told watch.new.items) }
    ensures kept { KeepFronts (map W.told watch.old.items) (map W.told watch.new.items) }
    ensures watchers { length watch.new.items ≡ watcher_count }
{
    let Renewed { image, code, names } = renew(saved, plan.keeper());
    let table = Shared::load(alloc, image, code)?;
    let (shared, processors) = table;
    // What the type of its code keeps is known once its parts were seen.
    let _ = shared.code.parts();
    let closed = drive(
        rt,
        alloc,
        shared,
        processors,
        plan,
        limits_of(options),
        watch,
    )?;
    let answer = resumed_answer(alloc, &closed, &names)?;
    Ok(answer)
}

/// The limits, as the options say them; who finds nothing to do leaves.
pub(crate) fn limits_of(options: ResumeOptions) -> Limits
    ensures { result ≡ limits_in options }
{
    Limits {
        turns: options.turns,
        looks: options.looks,
        seed: options.seed,
        idle: Idle::Leave,
    }
}
