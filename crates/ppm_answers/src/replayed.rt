//! What is written of a replay whose run was counted.
ghost use Rattle.std.specs.Prelude.{◌≡◌, IfOk};
ghost use Rattle.ppm_answers.specs.Statuses.{came_status as status_of_came};
ghost use Rattle.ppm_answers.specs.Texts.{counted_err, counted_out};

use crate::ends::{arrays_text_of, broken_text_of, room_text_of, trap_text_of, unfinished_text_of};
use crate::run_counts::{RunCounts, with_run_counts, with_tally_and_counts};
use crate::status::Status;
use crate::sweep::Came;
use std::alloc::{AllocError, Global};

/// What is written on out: the arrays or the trap, the tally, and the counts.
pub(crate) fn counted_out_of(
    alloc: Global,
    came: &Came,
    counts: RunCounts,
) -> Result<Vec<u8>, AllocError>
    ensures { IfOk result (λ text. text.items ≡ counted_out came.now counts) }
{
    match came {
        Came::Ended(arrays) => {
            let text = arrays_text_of(alloc, arrays.as_slice())?;
            with_tally_and_counts(alloc, text, counts)
        }
        Came::Trapped(trap, line) => {
            let text = trap_text_of(alloc, *trap, *line)?;
            with_tally_and_counts(alloc, text, counts)
        }
        Came::Unfinished(_) | Came::OutOfRoom(_) | Came::Broken(_) => Ok(Vec::new(alloc)),
    }
}

/// What is written on err: why there is no end, and the counts.
pub(crate) fn counted_err_of(
    alloc: Global,
    came: &Came,
    counts: RunCounts,
) -> Result<Vec<u8>, AllocError>
    ensures { IfOk result (λ text. text.items ≡ counted_err came.now counts) }
{
    match came {
        Came::Ended(_) | Came::Trapped(_, _) => Ok(Vec::new(alloc)),
        Came::Unfinished(acts) => {
            let text = unfinished_text_of(alloc, *acts)?;
            with_run_counts(alloc, text, counts)
        }
        Came::OutOfRoom(place) => {
            let text = room_text_of(alloc, *place)?;
            with_run_counts(alloc, text, counts)
        }
        Came::Broken(place) => {
            let text = broken_text_of(alloc, *place)?;
            with_run_counts(alloc, text, counts)
        }
    }
}

/// The status of what a run came to.
pub(crate) fn came_status(came: &Came) -> Status
    ensures { result ≡ status_of_came came.now }
{
    match came {
        Came::Ended(_) => Status::Ended,
        Came::Trapped(_, _) => Status::Trapped,
        Came::Unfinished(_) => Status::OutOfTurns,
        Came::OutOfRoom(_) => Status::OutOfRoom,
        Came::Broken(_) => Status::Broken,
    }
}
