//! What a run on threads came to, and what is written of one that was counted.
ghost use Rattle.std.specs.Prelude.{◌≡◌, IfOk};
ghost use Rattle.ppm_answers.specs.Statuses.{ran_status as status_of_ran};
ghost use Rattle.ppm_answers.specs.Texts.{ran_err, ran_out};

use crate::ends::{arrays_text_of, broken_text_of, room_text_of, trap_text_of};
use crate::run_counts::{RunCounts, with_run_counts};
use crate::status::Status;
use crate::texts::turns_text_of;
use ppm_words::{Items, NamedArray, Trap};
use std::alloc::{AllocError, Global};

/// What a run on threads came to.
#[derive(Debug, Drop)]
pub enum Ran {
    /// It ended with these arrays, in the order in which they are declared.
    Ended(Items<NamedArray>),
    /// It ended by a trap in this line of the source; lines count from 1.
    Trapped(Trap, u32),
    /// This processor had no turns left, and the run had not ended; processors count from 0.
    OutOfTurns(u32),
    /// The pool of this place had no room for a block; places count from 0.
    OutOfRoom(u32),
    /// The words were broken at this place; places count from 0, and 64 is for a place that isn't
    /// known.
    Broken(u32),
}

/// What is written on out: the arrays or the trap, and the counts.
pub(crate) fn ran_out_of(alloc: Global, ran: &Ran, counts: RunCounts) -> Result<Vec<u8>, AllocError>
    ensures { IfOk result (λ text. text.items ≡ ran_out ran.now counts) }
{
    match ran {
        Ran::Ended(arrays) => {
            let text = arrays_text_of(alloc, arrays.as_slice())?;
            with_run_counts(alloc, text, counts)
        }
        Ran::Trapped(trap, line) => {
            let text = trap_text_of(alloc, *trap, *line)?;
            with_run_counts(alloc, text, counts)
        }
        Ran::OutOfTurns(_) | Ran::OutOfRoom(_) | Ran::Broken(_) => Ok(Vec::new(alloc)),
    }
}

/// What is written on err: why there is no end, and the counts.
pub(crate) fn ran_err_of(alloc: Global, ran: &Ran, counts: RunCounts) -> Result<Vec<u8>, AllocError>
    ensures { IfOk result (λ text. text.items ≡ ran_err ran.now counts) }
{
    match ran {
        Ran::Ended(_) | Ran::Trapped(_, _) => Ok(Vec::new(alloc)),
        Ran::OutOfTurns(processor) => {
            let text = turns_text_of(alloc, *processor)?;
            with_run_counts(alloc, text, counts)
        }
        Ran::OutOfRoom(place) => {
            let text = room_text_of(alloc, *place)?;
            with_run_counts(alloc, text, counts)
        }
        Ran::Broken(place) => {
            let text = broken_text_of(alloc, *place)?;
            with_run_counts(alloc, text, counts)
        }
    }
}

/// The status of what a run came to.
pub(crate) fn ran_status(ran: &Ran) -> Status
    ensures { result ≡ status_of_ran ran.now }
{
    match ran {
        Ran::Ended(_) => Status::Ended,
        Ran::Trapped(_, _) => Status::Trapped,
        Ran::OutOfTurns(_) => Status::OutOfTurns,
        Ran::OutOfRoom(_) => Status::OutOfRoom,
        Ran::Broken(_) => Status::Broken,
    }
}
