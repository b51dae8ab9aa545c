//! Plans and schedules among the words.
ghost use Rattle.std.specs.Prelude.{◌≡◌};
ghost use Rattle.ppm_loading.specs.Planned.{refusal_of};

use ppm_answers::Answer;
use ppm_plan::PlanError;

/// What is answered where there is no plan or no schedule: that it is refused, or that memory was.
pub fn refusal_answer(error: PlanError) -> Answer
    ensures { result ≡ refusal_of error }
{
    match error {
        PlanError::NoMemory => Answer::NoMemory,
        PlanError::BadItem(_)
        | PlanError::NoSuchProcessor(_)
        | PlanError::TooManyFaults
        | PlanError::AllKilled => Answer::PlanRefused(error.number()),
    }
}
