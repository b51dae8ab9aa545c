//! Refusals that are explained, and their lines and statuses.
ghost use Rattle.std.specs.Prelude.{◌≡◌, ◌++◌, IfOk};
ghost use Rattle.ppm_answers.specs.Statuses.{refused_status as status_of_refused};
ghost use Rattle.ppm_answers.specs.Texts.{refused_text};

use crate::case::{InputRefusal, UntidyStore, input_text_of, untidy_text_of};
use crate::conflict::{
    Conflict, ListingRefusal, conflict_at_text_of, conflict_text_of, listing_text_of,
};
use crate::refusal::Refusal;
use crate::saved::{SavedRefusal, saved_line_of};
use crate::status::Status;
use crate::texts::{plan_text_of, refusal_text_of};
use std::alloc::{AllocError, Global};

/// Why a text is refused, as the command answers it that reads the text.
#[derive(Clone, Copy, Debug, PartialEq, Eq)]
pub enum Refused {
    /// A source, for this reason.
    Source(Refusal),
    /// A text that is the listing of no code, for this fault.
    Listing(ListingRefusal),
    /// The listing of a code with this conflict.
    Conflict(Conflict),
    /// A text that is no case, for this fault of an array line or of its root.
    Input(InputRefusal),
    /// A case whose code has this conflict; its two instructions stand in these lines, from 1.
    ConflictAt(Conflict, u64, u64),
    /// A case whose code has this store, which is not tidy.
    Untidy(UntidyStore),
    /// A text that is that of no saved state, for this fault.
    Saved(SavedRefusal),
    /// A plan or a schedule, for the fault of this number, from 1 to 4.
    Plan(u32),
}

/// The line of a refusal, with the notes that explain it.
pub(crate) fn explained_text_of(
    alloc: Global,
    refused: Refused,
    notes: &[u8],
) -> Result<Vec<u8>, AllocError>
    ensures { IfOk result (λ text. text.items ≡ refused_text refused ++ notes.now) }
{
    let mut text = refused_text_of(alloc, refused)?;
    text.extend_from_slice(notes)?;
    Ok(text)
}

/// The line of a refusal.
fn refused_text_of(alloc: Global, refused: Refused) -> Result<Vec<u8>, AllocError>
    ensures { IfOk result (λ text. text.items ≡ refused_text refused) }
{
    match refused {
        Refused::Source(refusal) => refusal_text_of(alloc, refusal),
        Refused::Listing(refusal) => listing_text_of(alloc, refusal),
        Refused::Conflict(conflict) => conflict_text_of(alloc, conflict),
        Refused::Input(refusal) => input_text_of(alloc, refusal),
        Refused::ConflictAt(conflict, read, write) => {
            conflict_at_text_of(alloc, conflict, read, write)
        }
        Refused::Untidy(untidy) => untidy_text_of(alloc, untidy),
        Refused::Saved(refusal) => saved_line_of(alloc, refusal),
        Refused::Plan(number) => plan_text_of(alloc, number),
    }
}

/// The status of a refusal.
pub(crate) fn refused_status(refused: Refused) -> Status
    ensures { result ≡ status_of_refused refused }
{
    match refused {
        Refused::Source(_) => Status::SourceRefused,
        Refused::Listing(_) | Refused::Conflict(_) | Refused::Input(_) => Status::CodeRefused,
        Refused::ConflictAt(_, _, _) | Refused::Untidy(_) => Status::CodeRefused,
        Refused::Saved(_) => Status::SavedRefused,
        Refused::Plan(_) => Status::WordsRefused,
    }
}
