//! What is answered where a text was not read whole.
ghost use Rattle.std.specs.Prelude.{◌≡◌};
ghost use Rattle.ppm_answers.specs.Reading.{unread_answer as answer_of};

use crate::answer::Answer;
use ppm_ports::ReadError;

/// The answer of each command that reads a text, where the source failed or memory was refused for
/// what was read.
pub fn answer_of_read(error: ReadError) -> Answer
    ensures { result ≡ answer_of error }
{
    match error {
        ReadError::Failed => Answer::ReadFault,
        ReadError::NoMemory => Answer::NoMemory,
    }
}
