//! Reads RAMs.
ghost use Rattle.std.specs.Prelude.{◌≡◌, ◌≤◌, ◌&&◌, nat_lt, IfOk, IfErr, Ok, length};
ghost use Rattle.ppm_pieces.specs.Numbers.{is_empty as is_nil};
ghost use Rattle.ppm_pieces.specs.Pieces.{split};
ghost use Rattle.ppm_ram.specs.Limits.{text_limit};
ghost use Rattle.ppm_ram.specs.Lines.{count_of as count, instructions_in, IsRefusal};
ghost use Rattle.ppm_ram.specs.Lines.{with_instructions, with_size};
ghost use Rattle.ppm_ram.specs.Said.{headed, sized, IsFaultOf};
ghost use Rattle.ppm_ram.specs.declared.ram_error.RamError.TheVariants.{Refused};
ghost use Rattle.ppm_ram.specs.Text.{IsTextOf};

use crate::instruction::Instruction;
use crate::line::{judge, size_in};
use crate::ram::{Ram, RamParts};
use crate::ram_error::{RamError, RamFault};
use crate::values::values_of;
use ppm_pieces::{same_bytes, split_once};
use ppm_words::Items;
use std::alloc::Global;

/// The bytes of a text, at most.
pub const TEXT_LIMIT: usize = 1_048_576;

/// Whether no bytes are left.
fn is_end(left: &[u8]) -> bool
    ensures { result ≡ is_nil left.now }
{
    left.is_empty()
}

/// Whether no bytes are left after so many instructions, one at least.
fn is_ended(left: &[u8], number: u32) -> bool
    ensures { result ≡ (is_nil left.now && nat_lt 0 number) }
{
    is_end(left) && number > 0
}

/// How many lines a text has: one without its line feed is a line.
fn count_of(text: &[u8]) -> u32
    requires { length text.now ≤ text_limit }
    ensures { result ≡ count (split 10 text.now) }
{
    let mut lines: u32 = 0;
    let mut left = text;
    while let Some((_, rest)) = split_once(left, b'\n') {
        lines += 1;
        left = rest;
    }
    if is_end(left) { lines } else { lines + 1 }
}

/// The refusal for a rule that a line breaks.
fn refused(rule: RamFault, line: u32) -> RamError
    ensures { result ≡ Refused rule line }
{
    RamError::Refused(rule, line)
}

/// Reads the instructions, so many lines.
fn read_instructions(alloc: Global, text: &[u8], count: u32) -> Result<Vec<Instruction>, RamError>
    requires { length text.now ≤ text_limit }
    ensures ok { IfOk result (λ is. instructions_in count 0 (split 10 text.now) ≡ Ok is.items) }
    ensures err { IfErr result (IsFaultOf (instructions_in count 0 (split 10 text.now))) }
{
    let mut instructions = Vec::new(alloc);
    let mut left = text;
    let mut number: u32 = 0;
    while let Some((line, rest)) = split_once(left, b'\n') {
        let instruction = match judge(count, number, line) {
            Ok(instruction) => instruction,
            Err(rule) => return Err(refused(rule, number + 4)),
        };
        instructions.push(instruction)?;
        number += 1;
        left = rest;
    }
    if is_ended(left, number) {
        Ok(instructions)
    } else {
        Err(refused(RamFault::NoSuchForm, number + 4))
    }
}

/// Reads the instructions of a RAM of so many words of memory with these values.
fn read_body(
    alloc: Global,
    memory: u32,
    values: Vec<i64>,
    text: &[u8],
) -> Result<RamParts, RamError>
    requires { length text.now ≤ text_limit }
    ensures ok { IfOk result (λ r. with_instructions memory values.items
        (instructions_in (count (split 10 text.now)) 0 (split 10 text.now)) ≡ Ok r) }
    ensures err { IfErr result (IsFaultOf (with_instructions memory values.items
        (instructions_in (count (split 10 text.now)) 0 (split 10 text.now)))) }
{
    match read_instructions(alloc, text, count_of(text)) {
        Ok(instructions) => Ok(RamParts {
            memory,
            values: Items::from_vec(values),
            instructions: Items::from_vec(instructions),
        }),
        Err(error) => Err(error),
    }
}

/// Reads what stands after the line of the memory, of so many words.
fn read_rest(alloc: Global, memory: u32, text: &[u8]) -> Result<RamParts, RamError>
    requires { length text.now ≤ text_limit }
    ensures ok { IfOk result (λ r. with_size (Ok memory) (split 10 text.now) ≡ Ok r) }
    ensures err { IfErr result (IsFaultOf (with_size (Ok memory) (split 10 text.now))) }
{
    let Some((line, rest)) = split_once(text, b'\n') else {
        return Err(refused(RamFault::NoSuchForm, 3));
    };
    match values_of(alloc, memory, line) {
        Ok(values) => read_body(alloc, memory, values, rest),
        Err(error) => Err(error),
    }
}

/// Reads what stands after the first line.
fn read_memory(alloc: Global, text: &[u8]) -> Result<RamParts, RamError>
    requires { length text.now ≤ text_limit }
    ensures ok { IfOk result (λ r. sized (split 10 text.now) ≡ Ok r) }
    ensures err { IfErr result (IsFaultOf (sized (split 10 text.now))) }
{
    let Some((line, rest)) = split_once(text, b'\n') else {
        return Err(refused(RamFault::NoSuchForm, 2));
    };
    match size_in(line) {
        Ok(memory) => read_rest(alloc, memory, rest),
        Err(rule) => Err(refused(rule, 2)),
    }
}

/// Reads the lines of a text that is not too long.
fn read_lines(alloc: Global, text: &[u8]) -> Result<RamParts, RamError>
    requires { length text.now ≤ text_limit }
    ensures ok { IfOk result (λ r. headed (split 10 text.now) ≡ Ok r) }
    ensures err { IfErr result (IsFaultOf (headed (split 10 text.now))) }
{
    let Some((line, rest)) = split_once(text, b'\n') else {
        return Err(refused(RamFault::NoSuchForm, 1));
    };
    if !same_bytes(line, b"ram 1") {
        return Err(refused(RamFault::NoSuchForm, 1));
    }
    read_memory(alloc, rest)
}

/// Whether a text is too long.
fn is_too_long(text: &[u8]) -> bool
    ensures { result ≡ nat_lt text_limit (length text.now) }
{
    text.len() > TEXT_LIMIT
}

/// The RAM of a text. `Err` with the first fault of a text that is of none, or where memory is
/// refused.
pub fn read_ram(alloc: Global, text: &[u8]) -> Result<Ram, RamError>
    ensures ok { IfOk result (IsTextOf text.now) }
    ensures err { IfErr result (IsRefusal text.now) }
{
    if is_too_long(text) {
        return Err(refused(RamFault::NoSuchForm, 1));
    }
    match read_lines(alloc, text) {
        Ok(parts) => Ok(Ram::from_parts(parts)),
        Err(error) => Err(error),
    }
}
