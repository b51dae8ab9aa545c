//! Texts of programs: their canonical text, their tree, or their fault.
use crate::said::Said;
use crate::trees::shown_tree;
use ppm_parser::{SyntaxError, parse};
use ppm_printer::print;
use ppm_sheets::Fault;
use ppm_text::{TextError, tokens};
use ppm_tree::Program;
use std::alloc::Global;

/// The program of a text, or what is said of its fault.
fn program_of(alloc: Global, text: &[u8]) -> Result<Result<Program, Said>, Fault> {
    let tokens = match tokens(alloc, text) {
        Ok(tokens) => tokens,
        Err(TextError::NoMemory) => return Err(Fault::NoMemory),
        Err(error) => return Ok(Err(no_tokens(alloc, error)?)),
    };
    match parse(alloc, &tokens) {
        Ok(program) => Ok(Ok(program)),
        Err(SyntaxError::NoMemory) => Err(Fault::NoMemory),
        Err(error) => Ok(Err(refused(alloc, error)?)),
    }
}

/// What is said of a text without tokens.
fn no_tokens(alloc: Global, error: TextError) -> Result<Said, Fault> {
    let number = error.number();
    let place = error.place();
    let text = format!(in alloc; "{number} at {place}: {error:?}\n")?;
    Ok(Said::Refused(text))
}

/// What is said of tokens without a program: the number, the place and the error, and the number of a
/// limit that is passed.
fn refused(alloc: Global, error: SyntaxError) -> Result<Said, Fault> {
    let number = error.number();
    let place = error.place();
    let text = match error {
        SyntaxError::TooMany(_, limit) => {
            let which = limit.number();
            format!(in alloc; "{number} at {place}: {error:?}, limit {which}\n")?
        }
        _ => format!(in alloc; "{number} at {place}: {error:?}\n")?,
    };
    Ok(Said::Refused(text))
}

/// `text`: the canonical text of a program.
pub(crate) fn text(alloc: Global, text: &[u8]) -> Result<Said, Fault> {
    match program_of(alloc, text)? {
        Ok(program) => match print(alloc, &program) {
            Ok(text) => Ok(Said::Out(text)),
            Err(_) => Err(Fault::NoMemory),
        },
        Err(said) => Ok(said),
    }
}

/// `tree`: the tree of a program, in one line.
pub(crate) fn tree(alloc: Global, text: &[u8]) -> Result<Said, Fault> {
    match program_of(alloc, text)? {
        Ok(program) => {
            let tree = shown_tree(alloc, program.tree())?;
            Said::of_text(alloc, &format!(in alloc; "{tree}\n")?)
        }
        Err(said) => Ok(said),
    }
}
