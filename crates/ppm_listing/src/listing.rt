//! Writes the listing of a code.
ghost use Rattle.std.specs.Prelude.{◌≡◌, ◌≤◌, ◌++◌, length, map, OnOk, IfOk};
ghost use Rattle.ppm_code.specs.Limits.{procedure_limit, capsule_limit};
ghost use Rattle.ppm_listing.specs.Tokens.{line_text};
ghost use Rattle.ppm_listing.specs.Listing.{listing_of, text_of, root_line};
ghost use Rattle.ppm_listing.specs.Listing.{procedure_line as line_of_procedure, procedure_lines};
ghost use Rattle.ppm_listing.specs.Listing.{capsule_lines, lines_of_capsule, instr_line};
ghost use Rattle.std.specs.List.{AllByRecursion};
ghost use Rattle.ppm_listing.specs.Correct.{LineFits, NumbersFit};

use crate::instr::push_instr;
use crate::keyword::Keyword;
use crate::line::{number_token, push_line};
use crate::token::Token;
use ppm_code::{Capsule, Code, CodeParts, Instr, Procedure};
use ppm_words::NoMemory;
use std::alloc::Global;

/// Appends the line of the root.
fn push_root(alloc: Global, text: &mut Vec<u8>, root: u32, arrays: &[u32]) -> Result<(), NoMemory>
    ensures text { OnOk result (text.new.items
        ≡ text.old.items ++ line_text (root_line root arrays.now)) }
    ensures fits { OnOk result (LineFits (root_line root arrays.now)) }
{
    let mut operands = Vec::new(alloc);
    operands.push(number_token(root))?;
    let mut left = arrays;
    while let [array, rest @ ..] = left {
        operands.push(number_token(*array))?;
        left = rest;
    }
    push_line(text, Keyword::Root, &operands)?;
    Ok(())
}

/// Appends the lines of procedures, numbered from 0 on.
fn push_procedures(text: &mut Vec<u8>, procedures: &[Procedure]) -> Result<(), NoMemory>
    requires { length procedures.now ≤ procedure_limit }
    ensures text { OnOk result (text.new.items
        ≡ text.old.items ++ text_of (procedure_lines 0 procedures.now)) }
    ensures fits { OnOk result (AllByRecursion LineFits (procedure_lines 0 procedures.now)) }
{
    let mut number: u32 = 0;
    let mut left = procedures;
    while let [procedure, rest @ ..] = left {
        push_procedure(text, number, procedure)?;
        number += 1;
        left = rest;
    }
    Ok(())
}

/// Appends the line of a procedure.
fn push_procedure(text: &mut Vec<u8>, number: u32, procedure: &Procedure) -> Result<(), NoMemory>
    ensures text { OnOk result (text.new.items
        ≡ text.old.items ++ line_text (line_of_procedure number procedure.now)) }
    ensures fits { LineFits (line_of_procedure number procedure.now) }
{
    push_line(
        text,
        Keyword::Proc,
        &[
            number_token(number),
            Token::Name(Keyword::Slots),
            number_token(procedure.slots),
            Token::Name(Keyword::Entry),
            number_token(procedure.entry),
        ],
    )
}

/// Appends the lines of capsules, numbered from 0 on.
fn push_capsules(text: &mut Vec<u8>, capsules: &[Capsule]) -> Result<(), NoMemory>
    requires { length capsules.now ≤ capsule_limit }
    ensures text { OnOk result (text.new.items
        ≡ text.old.items ++ text_of (capsule_lines 0 capsules.now)) }
    ensures fits { OnOk result (AllByRecursion LineFits (capsule_lines 0 capsules.now)) }
{
    let mut number: u32 = 0;
    let mut left = capsules;
    while let [capsule, rest @ ..] = left {
        push_capsule(text, number, capsule)?;
        number += 1;
        left = rest;
    }
    Ok(())
}

/// Appends the lines of a capsule.
fn push_capsule(text: &mut Vec<u8>, number: u32, capsule: &Capsule) -> Result<(), NoMemory>
    ensures text { OnOk result (text.new.items
        ≡ text.old.items ++ text_of (lines_of_capsule number capsule.now)) }
    ensures fits { OnOk result (AllByRecursion LineFits (lines_of_capsule number capsule.now)) }
{
    push_line(
        text,
        Keyword::Capsule,
        &[
            number_token(number),
            Token::Name(Keyword::Proc),
            number_token(capsule.procedure),
        ],
    )?;
    push_instrs(text, capsule.instrs.as_slice())?;
    Ok(())
}

/// Appends the lines of instructions.
fn push_instrs(text: &mut Vec<u8>, instrs: &[Instr]) -> Result<(), NoMemory>
    ensures text { OnOk result (text.new.items
        ≡ text.old.items ++ text_of (map instr_line instrs.now)) }
    ensures fits { OnOk result (AllByRecursion LineFits (map instr_line instrs.now)) }
{
    let mut left = instrs;
    while let [instr, rest @ ..] = left {
        push_instr(text, *instr)?;
        left = rest;
    }
    Ok(())
}

/// Appends the lines of a code's parts.
pub(crate) fn push_parts(
    alloc: Global,
    text: &mut Vec<u8>,
    parts: &CodeParts,
) -> Result<(), NoMemory>
    requires procedures { length parts.now.procedures ≤ procedure_limit }
    requires capsules { length parts.now.capsules ≤ capsule_limit }
    ensures text { OnOk result (text.new.items ≡ text.old.items ++ listing_of parts.now) }
    ensures fits { OnOk result (NumbersFit parts.now) }
{
    push_line(text, Keyword::Ppm, &[number_token(1)])?;
    push_root(alloc, text, parts.root, parts.arrays.as_slice())?;
    push_procedures(text, parts.procedures.as_slice())?;
    push_capsules(text, parts.capsules.as_slice())?;
    Ok(())
}

/// The listing of a code. `Err` only where memory is refused, which is taken in proportion to the
/// listing. All numbers of the code fit 64 bits, so no other code has this listing
/// (`listings_tell_codes`).
pub fn write_listing(alloc: Global, code: &Code) -> Result<Vec<u8>, NoMemory>
    ensures listing { IfOk result (λ text. text.items ≡ listing_of code.now) }
    ensures fits { OnOk result (NumbersFit code.now) }
{
    let mut text = Vec::new(alloc);
    push_parts(alloc, &mut text, code.parts())?;
    Ok(text)
}
