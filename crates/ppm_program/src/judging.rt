//! The program of a text, or why it is refused.
ghost use Rattle.std.specs.Prelude.{IfOk, IfErr};
ghost use Rattle.ppm_tree.specs.Tree.{tree_of};
ghost use Rattle.ppm_rows.specs.Correct.{HasTree};
ghost use Rattle.ppm_parser.specs.Faults.{IsFault};
ghost use Rattle.ppm_program.specs.Programs.{IsTreeOf, HasProgram, IsAdmittedTreeOf};
ghost use Rattle.ppm_program.specs.Judging.{MayStop};

use ppm_answers::{Pass, Refusal};
use ppm_cut_bounds::{BoundError, within_bounds};
use ppm_parser::{SyntaxError, parse};
use ppm_regions::{Admitted, RegionError, admit};
use ppm_text::{TextError, Tokens, tokens};
use ppm_tree::Program;
use std::alloc::Global;
use thiserror::Error;

/// Why a text has no program.
#[derive(Clone, Copy, Debug, PartialEq, Eq, Error)]
pub enum JudgeError {
    /// It is refused.
    #[error("refused")]
    Refused(Refusal),
    /// Memory was refused.
    #[error("out of memory")]
    NoMemory,
}

impl From<TextError> for JudgeError {
    ghost use Rattle.std.specs.Prelude.{◌≡◌};
    ghost use Rattle.ppm_program.specs.Judging.{of_text};

    ghost from_gives = { λ x e. e ≡ of_text x };

    fn from(e: TextError) -> Self {
        match e {
            TextError::NoMemory => JudgeError::NoMemory,
            TextError::TooLong(_)
            | TextError::NotAscii(_)
            | TextError::BadChar(_)
            | TextError::NumberTooBig(_)
            | TextError::NameTooLong(_) => JudgeError::Refused(Refusal {
                pass: Pass::Text,
                number: e.number(),
                place: e.place(),
            }),
        }
    }
}

impl From<SyntaxError> for JudgeError {
    ghost use Rattle.std.specs.Prelude.{◌≡◌};
    ghost use Rattle.ppm_program.specs.Judging.{of_syntax};

    ghost from_gives = { λ x e. e ≡ of_syntax x };

    fn from(e: SyntaxError) -> Self {
        match e {
            SyntaxError::NoMemory => JudgeError::NoMemory,
            SyntaxError::Expected(_)
            | SyntaxError::Ended(_)
            | SyntaxError::TooDeep(_)
            | SyntaxError::TooMany(_, _) => JudgeError::Refused(Refusal {
                pass: Pass::Syntax,
                number: e.number(),
                place: e.place(),
            }),
        }
    }
}

impl From<RegionError> for JudgeError {
    ghost use Rattle.std.specs.Prelude.{◌≡◌};
    ghost use Rattle.ppm_program.specs.Judging.{of_region};

    ghost from_gives = { λ x e. e ≡ of_region x };

    fn from(e: RegionError) -> Self {
        match e {
            RegionError::NoMemory => JudgeError::NoMemory,
            RegionError::UnknownName(_)
            | RegionError::TwiceNamed(_)
            | RegionError::WrongKind(_)
            | RegionError::WrongCount(_)
            | RegionError::WriteToRef(_)
            | RegionError::LentTwice(_)
            | RegionError::HiddenRegion(_)
            | RegionError::BadMain(_)
            | RegionError::BadInput(_)
            | RegionError::NoValue(_)
            | RegionError::TwiceTarget(_)
            | RegionError::OuterWritten(_)
            | RegionError::OuterAssigned(_) => JudgeError::Refused(Refusal {
                pass: Pass::Region,
                number: e.number(),
                place: e.line(),
            }),
        }
    }
}

impl From<BoundError> for JudgeError {
    ghost use Rattle.std.specs.Prelude.{◌≡◌};
    ghost use Rattle.ppm_program.specs.Judging.{of_bound};

    ghost from_gives = { λ x e. e ≡ of_bound x };

    fn from(e: BoundError) -> Self {
        match e {
            BoundError::NoMemory => JudgeError::NoMemory,
            BoundError::TooManySlots(_)
            | BoundError::TooManyCaught(_)
            | BoundError::TooManyCapsules => JudgeError::Refused(Refusal {
                pass: Pass::Cut,
                number: e.number(),
                place: e.place(),
            }),
        }
    }
}

/// The program of the tokens, or their fault.
fn parsed(alloc: Global, all: Tokens) -> Result<Program, SyntaxError>
    ensures tree { IfOk result (λ program. HasTree all.tokens (tree_of program)) }
    ensures fault { IfErr result (λ error. IsFault all error) }
{
    parse(alloc, &all)
}

/// The tree of a text within the limits.
fn derived_of(alloc: Global, text: &[u8]) -> Result<Program, JudgeError>
    ensures tree { IfOk result (λ s. IsTreeOf text.now (tree_of s)) }
    ensures refused { IfErr result (MayStop text.now) }
{
    let all = tokens(alloc, text)?;
    let program = parsed(alloc, all)?;
    Ok(program)
}

/// The admitted tree of a text.
fn admitted_of(alloc: Global, text: &[u8]) -> Result<Admitted, JudgeError>
    ensures admitted { IfOk result (λ a. IsAdmittedTreeOf text.now (tree_of a)) }
    ensures refused { IfErr result (MayStop text.now) }
{
    let program = derived_of(alloc, text)?;
    let admitted = admit(alloc, program)?;
    // What the type of `admitted` keeps is known once its program was seen.
    let _ = admitted.program();
    Ok(admitted)
}

/// The program of a text, admitted and within the bounds of the compiler, or the one reason for
/// which it is refused: its bytes are judged first, then its tokens, then names and regions, then
/// the bounds.
pub fn program_of(alloc: Global, text: &[u8]) -> Result<Admitted, JudgeError>
    ensures program { IfOk result (λ a. HasProgram text.now (tree_of a)) }
    ensures refused { IfErr result (MayStop text.now) }
{
    let admitted = admitted_of(alloc, text)?;
    match within_bounds(alloc, admitted.program()) {
        Ok(()) => Ok(admitted),
        Err(error) => Err(JudgeError::from(error)),
    }
}
