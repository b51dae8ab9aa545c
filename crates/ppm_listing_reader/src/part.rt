//! What one line says.
ghost use Rattle.std.specs.Prelude.{◌≡◌, map, IfOk, None, if◌then◌else◌};
ghost use Rattle.std.specs.List.{list_all};
ghost use Rattle.ppm_listing.specs.declared.keyword.Keyword.TheVariants as keyword;
ghost use Rattle.ppm_listing_reader.specs.Forms.{number_of as of_number, part_of as of_keyword};
ghost use Rattle.ppm_listing_reader.specs.Forms.{part_in as of_tokens, line_of};
ghost use Rattle.ppm_listing_reader.specs.Forms.{instr_of as of_line, is_register};

use crate::form::has_form;
use crate::instr::instr_of;
use crate::operand::{are_registers, number_at, number_of};
use crate::token::{Token, read_tokens};
use ppm_code::Instr;
use ppm_listing::Keyword;
use ppm_words::{Items, NoMemory};
use std::alloc::Global;

/// What a line of some form says. A number past 2^32 - 1 stands as that one: no range goes so far.
#[derive(Debug, Drop)]
pub enum Part {
    /// The version of the form, 1.
    Version,
    /// The procedure of the root, and the arrays of its first slots.
    Root { procedure: u32, arrays: Items<u32> },
    /// A procedure with its number.
    Procedure { number: u32, slots: u32, entry: u32 },
    /// A capsule with its number, in front of its instructions.
    Capsule { number: u32, procedure: u32 },
    /// An instruction; `None` where it names a register, a constant or a trap that there is not.
    Instr(Option<Instr>),
}

/// The numbers of tokens.
fn numbers(alloc: Global, tokens: &[Token]) -> Result<Vec<u32>, NoMemory>
    ensures { IfOk result (λ numbers. numbers.items ≡ map of_number tokens.now) }
{
    let mut numbers = Vec::new(alloc);
    let mut left = tokens;
    while let [token, rest @ ..] = left {
        numbers.push(number_of(*token))?;
        left = rest;
    }
    Ok(numbers)
}

/// The root's line after its keyword.
fn root(alloc: Global, tokens: &[Token]) -> Result<Part, NoMemory>
    ensures { IfOk result (λ p. p ≡ of_keyword keyword.Root tokens.now) }
{
    let arrays = match tokens {
        [] => Vec::new(alloc),
        [_, rest @ ..] => numbers(alloc, rest)?,
    };
    Ok(Part::Root {
        procedure: number_at(tokens, 0),
        arrays: Items::from_vec(arrays),
    })
}

/// The instruction of a line, where all that it names is there.
fn whole_instr(keyword: Keyword, tokens: &[Token]) -> Option<Instr>
    ensures { result
        ≡ (if list_all is_register tokens.now then of_line keyword tokens.now else None) }
{
    if are_registers(tokens) {
        instr_of(keyword, tokens)
    } else {
        None
    }
}

/// What a line says by its keyword.
fn part_of(alloc: Global, keyword: Keyword, tokens: &[Token]) -> Result<Part, NoMemory>
    ensures { IfOk result (λ p. p ≡ of_keyword keyword tokens.now) }
{
    match keyword {
        Keyword::Ppm => Ok(Part::Version),
        Keyword::Root => root(alloc, tokens),
        Keyword::Proc => Ok(Part::Procedure {
            number: number_at(tokens, 0),
            slots: number_at(tokens, 2),
            entry: number_at(tokens, 4),
        }),
        Keyword::Capsule => Ok(Part::Capsule {
            number: number_at(tokens, 0),
            procedure: number_at(tokens, 2),
        }),
        Keyword::Slots
        | Keyword::Entry
        | Keyword::Const
        | Keyword::Move
        | Keyword::Add
        | Keyword::Sub
        | Keyword::Mul
        | Keyword::Div
        | Keyword::Rem
        | Keyword::Equal
        | Keyword::NotEqual
        | Keyword::Less
        | Keyword::AtMost
        | Keyword::Len
        | Keyword::CutLeft
        | Keyword::CutRight
        | Keyword::LoadSlot
        | Keyword::StoreCur
        | Keyword::Give
        | Keyword::Get
        | Keyword::Put
        | Keyword::BranchZero
        | Keyword::BranchNonZero
        | Keyword::Room
        | Keyword::StoreNew
        | Keyword::Next
        | Keyword::End
        | Keyword::Trap
        | Keyword::Call
        | Keyword::CallTo
        | Keyword::Fork
        | Keyword::ForkTo => Ok(Part::Instr(whole_instr(keyword, tokens))),
    }
}

/// What tokens say; `None` where they have no form.
fn part_in(alloc: Global, tokens: &[Token]) -> Result<Option<Part>, NoMemory>
    ensures { IfOk result (λ p. p ≡ of_tokens tokens.now) }
{
    match tokens {
        [Token::Name(keyword), rest @ ..] => {
            if has_form(*keyword, rest) {
                Ok(Some(part_of(alloc, *keyword, rest)?))
            } else {
                Ok(None)
            }
        }
        _ => Ok(None),
    }
}

/// What the bytes of a line say, without its line feed. The tokens are for use on the way.
pub(crate) fn read_line(
    alloc: Global,
    bytes: &[u8],
    tokens: &mut Vec<Token>,
) -> Result<Option<Part>, NoMemory>
    ensures { IfOk result (λ p. p ≡ line_of bytes.now) }
{
    read_tokens(bytes, tokens)?;
    part_in(alloc, tokens)
}
