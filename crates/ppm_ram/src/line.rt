//! The lines of a RAM's text: its memory, its values and its instructions.
ghost use Rattle.std.specs.Prelude.{◌≡◌, ◌<◌, ◌^◌};
ghost use Rattle.ppm_pieces.specs.Pieces.{halves_of};
ghost use Rattle.ppm_ram.specs.Numbers.{register_in as register, value_in as value_said};
ghost use Rattle.ppm_ram.specs.Numbers.{target_in as target};
ghost use Rattle.ppm_ram.specs.Lines.{two_in, third_in as third, three_in as three};
ghost use Rattle.ppm_ram.specs.Lines.{operands_in as operands, instruction_in as instruction};
ghost use Rattle.ppm_ram.specs.Lines.{standing};
ghost use Rattle.ppm_ram.specs.declared.keyword.Keyword.TheVariants.{Computes};
ghost use Rattle.ppm_ram.specs.Lines.{judged as verdict, size_in as size};

use crate::instruction::{Instruction, Operation};
use crate::keyword::{Keyword, keyword_of};
use crate::number::{pair_of, register_in, target_in, value_in};
use crate::ram_error::RamFault;
use crate::register::Register;
use ppm_pieces::{is_numeral, same_bytes, split_once, value};
use ppm_words::WORD_LIMIT;

/// Two registers with one space between them.
fn registers_in(words: &[u8]) -> Option<Option<(Register, Register)>>
    ensures { result ≡ two_in register register (halves_of 32 words.now) }
{
    match split_once(words, b' ') {
        None => None,
        Some((first, second)) => pair_of(register_in(first), register_in(second)),
    }
}

/// A register and a value.
fn constant_in(words: &[u8]) -> Option<Option<(Register, i64)>>
    ensures { result ≡ two_in register value_said (halves_of 32 words.now) }
{
    match split_once(words, b' ') {
        None => None,
        Some((first, second)) => pair_of(register_in(first), value_in(second)),
    }
}

/// A register and an instruction.
fn test_in(words: &[u8]) -> Option<Option<(Register, u32)>>
    ensures { result ≡ two_in register target (halves_of 32 words.now) }
{
    match split_once(words, b' ') {
        None => None,
        Some((first, second)) => pair_of(register_in(first), target_in(second)),
    }
}

/// Two registers after a first one.
fn third_in(
    first: Option<Option<Register>>,
    words: &[u8],
) -> Option<Option<((Register, Register), Register)>>
    ensures { result ≡ third first (halves_of 32 words.now) }
{
    match split_once(words, b' ') {
        None => None,
        Some((second, third)) => pair_of(pair_of(first, register_in(second)), register_in(third)),
    }
}

/// Three registers.
fn three_in(words: &[u8]) -> Option<Option<((Register, Register), Register)>>
    ensures { result ≡ three (halves_of 32 words.now) }
{
    match split_once(words, b' ') {
        None => None,
        Some((first, rest)) => third_in(register_in(first), rest),
    }
}

/// The instruction of an operation.
fn compute_in(operation: Operation, words: &[u8]) -> Option<Option<Instruction>>
    ensures { result ≡ operands (Computes operation) words.now }
{
    match three_in(words) {
        None => None,
        Some(None) => Some(None),
        Some(said) => match said {
            None => Some(None),
            Some(((to, left), right)) => Some(Some(Instruction::Compute {
                operation,
                to,
                left,
                right,
            })),
        },
    }
}

/// The instruction of a keyword and its operands.
fn operands_in(keyword: Keyword, words: &[u8]) -> Option<Option<Instruction>>
    ensures { result ≡ operands keyword words.now }
{
    match keyword {
        Keyword::Set => match constant_in(words) {
            None => None,
            Some(said) => match said {
                None => Some(None),
                Some((to, value)) => Some(Some(Instruction::Set { to, value })),
            },
        },
        Keyword::Computes(operation) => compute_in(operation, words),
        Keyword::Load => match registers_in(words) {
            None => None,
            Some(said) => match said {
                None => Some(None),
                Some((to, at)) => Some(Some(Instruction::Load { to, at })),
            },
        },
        Keyword::Store => match registers_in(words) {
            None => None,
            Some(said) => match said {
                None => Some(None),
                Some((at, from)) => Some(Some(Instruction::Store { at, from })),
            },
        },
        Keyword::JumpIfZero => match test_in(words) {
            None => None,
            Some(said) => match said {
                None => Some(None),
                Some((tested, target)) => Some(Some(Instruction::JumpIfZero { tested, target })),
            },
        },
        Keyword::Jump => match target_in(words) {
            None => None,
            Some(said) => match said {
                None => Some(None),
                Some(target) => Some(Some(Instruction::Jump { target })),
            },
        },
    }
}

/// The instruction of a line.
fn instruction_in(line: &[u8]) -> Option<Option<Instruction>>
    ensures { result ≡ instruction line.now }
{
    match split_once(line, b' ') {
        None => {
            if same_bytes(line, b"halt") {
                Some(Some(Instruction::Halt))
            } else {
                None
            }
        }
        Some((word, rest)) => match keyword_of(word) {
            None => None,
            Some(keyword) => operands_in(keyword, rest),
        },
    }
}

/// An instruction by its number among so many, or the rule of the least number that it breaks
/// there.
fn stand(count: u32, number: u32, instruction: Instruction) -> Result<Instruction, RamFault>
    requires { number < 2 ^ 31 }
    ensures { result ≡ standing count number instruction }
{
    if !instruction.has_target(count) {
        return Err(RamFault::NoSuchTarget);
    }
    if number + 1 == count && !instruction.is_final() {
        return Err(RamFault::NoEnd);
    }
    if number >= 30_000 {
        return Err(RamFault::TooMany);
    }
    Ok(instruction)
}

/// The instruction of a line, by its number among so many, or the rule of the least number that the
/// line breaks.
pub(crate) fn judge(count: u32, number: u32, line: &[u8]) -> Result<Instruction, RamFault>
    requires { number < 2 ^ 31 }
    ensures { result ≡ verdict count number (instruction line.now) }
{
    match instruction_in(line) {
        None => Err(RamFault::NoSuchForm),
        Some(said) => match said {
            None => Err(RamFault::OutOfRange),
            Some(instruction) => stand(count, number, instruction),
        },
    }
}

/// The words of memory that a line asks for.
pub(crate) fn size_in(line: &[u8]) -> Result<u32, RamFault>
    ensures { result ≡ size line.now }
{
    let Some((word, number)) = split_once(line, b' ') else {
        return Err(RamFault::NoSuchForm);
    };
    if !same_bytes(word, b"memory") {
        return Err(RamFault::NoSuchForm);
    }
    if !is_numeral(number) {
        return Err(RamFault::NoSuchForm);
    }
    if value(number) <= u64::from(WORD_LIMIT) {
        Ok(value(number) as u32)
    } else {
        Err(RamFault::OutOfRange)
    }
}
