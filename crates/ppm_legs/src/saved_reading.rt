//! The state of a saved text that a command reads, and the schedule by which it goes on from there.
ghost use Rattle.std.specs.Prelude.{◌≡◌, ◌≢◌, IfErr, IfOk, None};
ghost use Rattle.ppm_ports.specs.Ports.{port};
ghost use Rattle.ppm_cells.specs.Finish.{finish_of};
ghost use Rattle.ppm_plan.specs.Forms.{schedule_form};
ghost use Rattle.ppm_plan.specs.Refusals.{IsAccepted};
ghost use Rattle.ppm_answers.specs.Reading.{TextMay};
ghost use Rattle.ppm_loading.specs.Programs.{ProgramMay};
ghost use Rattle.ppm_outcomes.specs.Resumes.{IsTextOf, refusal_of, saved_finish, state_of};
ghost use Rattle.ppm_legs.specs.SavedTexts.{NoLegMay, NoStateMay, ReadsLeg, ReadsState, RefusedHas, StateHas};

use ppm_answers::{Answer, SavedRefusal, answer_of_read};
use ppm_cells::UNKNOWN_PLACE;
use ppm_loading::refusal_answer;
use ppm_plan::{Schedule, read_schedule};
use ppm_ports::{Source, read_whole};
use ppm_saved::Saved;
use ppm_saved_reader::{SAVED_LIMIT, SavedError, read_saved};
use std::alloc::Global;

/// What a command goes on with: the state of the text that is read comes first, and then the
/// schedule, for as many processors as the state has. `Err` is the answer where there is none: the
/// text or the schedule is refused, or the state's finish word stands for nothing.
pub(crate) fn read_leg<S: Source>(
    alloc: Global,
    schedule: &[u8],
    source: &mut S,
) -> Result<(Saved, Schedule), Answer>
    ensures leg { IfOk result (λ leg. ReadsLeg schedule.now (port S.left S.fault_count source.old source.new) (state_of leg.0) leg.1.items) }
    ensures count { IfOk result (λ leg. leg.1.processors ≡ leg.0.shape.processors) }
    ensures none { IfErr result (NoLegMay schedule.now (port S.left S.fault_count source.old source.new)) }
{
    let saved = state_of_source(alloc, source)?;
    let schedule = schedule_for(alloc, schedule, &saved)?;
    Ok((saved, schedule))
}

/// The state of what is read, to its end or one byte past the limit of a saved text. `Err` is the
/// answer where there is none.
fn state_of_source<S: Source>(alloc: Global, source: &mut S) -> Result<Saved, Answer>
    ensures state { IfOk result (λ saved. ReadsState (port S.left S.fault_count source.old source.new) (state_of saved)) }
    ensures none { IfErr result (NoStateMay (port S.left S.fault_count source.old source.new)) }
{
    match read_whole(alloc, source, SAVED_LIMIT) {
        Ok(text) => text_state(alloc, &text),
        Err(error) => Err(answer_of_read(error)),
    }
}

/// The state of a text. `Err` is the answer where there is none.
fn text_state(alloc: Global, text: &[u8]) -> Result<Saved, Answer>
    ensures state { IfOk result (λ saved. IsTextOf text.now (state_of saved)) }
    ensures none { IfErr result (TextMay RefusedHas text.now) }
{
    if text.len() > SAVED_LIMIT {
        return Err(Answer::SavedRefused(SavedRefusal { number: 1, line: 1 }));
    }
    match read_saved(alloc, text) {
        Ok(saved) => Ok(saved),
        Err(error) => Err(refused_answer(error)),
    }
}

/// What is answered where a text is that of no state, or memory was refused.
fn refused_answer(error: SavedError) -> Answer
    ensures { result ≡ refusal_of error }
{
    match error {
        SavedError::NoMemory => Answer::NoMemory,
        SavedError::NoSuchForm(_)
        | SavedError::OutOfRange(_)
        | SavedError::BadListing(_)
        | SavedError::BadCode(_)
        | SavedError::WrongCount(_) => Answer::SavedRefused(SavedRefusal {
            number: error.number(),
            line: error.line(),
        }),
    }
}

/// The schedule for the processors of a state. `Err` is the answer where it is refused, or where the
/// state's finish word stands for nothing.
fn schedule_for(alloc: Global, text: &[u8], saved: &Saved) -> Result<Schedule, Answer>
    ensures accepted { IfOk result (λ schedule. IsAccepted schedule_form text.now saved.now.shape.processors schedule.items) }
    ensures count { IfOk result (λ schedule. schedule.processors ≡ saved.now.shape.processors) }
    ensures stands { IfOk result (λ _. finish_of (saved_finish (state_of saved.now)) ≢ None) }
    ensures none { IfErr result (ProgramMay (StateHas (λ items z a. ⊥) text.now (state_of saved.now))) }
{
    match read_schedule(alloc, text, saved.shape.processors) {
        Ok(schedule) => {
            if saved.finish().is_none() {
                return Err(Answer::Broken(UNKNOWN_PLACE));
            }
            Ok(schedule)
        }
        Err(error) => Err(refusal_answer(error)),
    }
}
