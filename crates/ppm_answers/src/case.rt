//! Why a case is refused, and the lines that tell it.
ghost use Rattle.std.specs.Prelude.{◌≡◌, IfOk};
ghost use Rattle.ppm_answers.specs.Texts.{input_text, untidy_text};

use std::alloc::{AllocError, Global};

/// The fault for which a text is no case: one of its array lines, or of its root.
#[derive(Clone, Copy, Debug, PartialEq, Eq)]
pub struct InputRefusal {
    /// The fault's number, from 1 to 5.
    pub number: u32,
    /// The line of the fault, from 1.
    pub line: u32,
}

/// A store into a new block that is not tidy.
#[derive(Clone, Copy, Debug, PartialEq, Eq)]
pub struct UntidyStore {
    /// The capsule, from 0.
    pub capsule: u32,
    /// The number of the instruction in its capsule, from 0.
    pub store: u32,
    /// The line of the instruction in the text, from 1.
    pub line: u64,
}

/// The line of a text that is no case.
pub(crate) fn input_text_of(alloc: Global, refusal: InputRefusal) -> Result<Vec<u8>, AllocError>
    ensures { IfOk result (λ text. text.items ≡ input_text refusal) }
{
    let InputRefusal { number, line } = refusal;
    let text = format!(in alloc; "input refused: {number} line {line}\n")?;
    Ok(text.into_bytes())
}

/// The line of an untidy store.
pub(crate) fn untidy_text_of(alloc: Global, untidy: UntidyStore) -> Result<Vec<u8>, AllocError>
    ensures { IfOk result (λ text. text.items ≡ untidy_text untidy) }
{
    let UntidyStore {
        capsule,
        store,
        line,
    } = untidy;
    let text = format!(in alloc; "untidy: capsule {capsule} store {store} line {line}\n")?;
    Ok(text.into_bytes())
}
