//! The tokens of a line.
ghost use Rattle.std.specs.Fmt.{signed_decimal};
ghost use Rattle.std.specs.Prelude.{◌≡◌, ◌++◌, OnOk, decimal};
ghost use Rattle.std.specs.List.{flat_map};
ghost use Rattle.ppm_listing.specs.Tokens.{token_text, operand_text};

use crate::keyword::Keyword;
use ppm_code::Register;
use ppm_words::NoMemory;

/// A token of a line: what stands between two spaces.
#[derive(Clone, Copy, Debug)]
pub enum Token {
    /// A keyword.
    Name(Keyword),
    /// A register, as `r7`.
    Register(Register),
    /// A number in decimal.
    Number(i64),
    /// `-`, where no slot is named.
    Absent,
}

/// Appends a number in decimal, digit by digit, with no text of its own in between.
fn push_decimal(text: &mut Vec<u8>, number: u64) -> Result<(), NoMemory>
    ensures { OnOk result (text.new.items ≡ text.old.items ++ decimal number) }
{
    if number < 10 {
        text.push(b'0' + number as u8)?;
        return Ok(());
    }
    push_decimal(text, number / 10)?;
    text.push(b'0' + (number % 10) as u8)?;
    Ok(())
}

/// Appends a number in decimal, with a minus where it is below 0.
fn push_signed(text: &mut Vec<u8>, number: i64) -> Result<(), NoMemory>
    ensures { OnOk result (text.new.items ≡ text.old.items ++ signed_decimal number) }
{
    if number >= 0 {
        return push_decimal(text, number.unsigned_abs());
    }
    text.push(b'-')?;
    push_decimal(text, number.unsigned_abs())
}

/// Appends the text of a token.
fn push_token(text: &mut Vec<u8>, token: Token) -> Result<(), NoMemory>
    ensures { OnOk result (text.new.items ≡ text.old.items ++ token_text token) }
{
    match token {
        Token::Name(keyword) => text.extend_from_slice(keyword.spelling().as_bytes())?,
        Token::Register(register) => {
            text.push(b'r')?;
            push_decimal(text, u64::from(register.index))?;
        }
        Token::Number(value) => push_signed(text, value)?,
        Token::Absent => text.push(b'-')?,
    }
    Ok(())
}

/// Appends a space and the text, for each of the tokens.
pub(crate) fn push_operands(text: &mut Vec<u8>, operands: &[Token]) -> Result<(), NoMemory>
    ensures { OnOk result (text.new.items ≡ text.old.items ++ flat_map operand_text operands.now) }
{
    for token in operands {
        text.push(b' ')?;
        push_token(text, *token)?;
    }
    Ok(())
}
