//! Tokens at the end of a text.
ghost use Rattle.std.specs.Prelude.{[], ◌∷◌, OnOk};
ghost use Rattle.ppm_printer.specs.Spelled.{Appends};
ghost use Rattle.ppm_printer.specs.Canonical.{name as name_token, number as number_token, word};
ghost use Rattle.ppm_printer.specs.Canonical.{sign as sign_token, integer_tokens};

use crate::spelling::{blank_behind, keyword_spelling, sign_spelling};
use ppm_text::{Keyword, Sign};
use ppm_tree::Named;
use ppm_words::NoMemory;
use std::alloc::Global;

/// Appends a keyword.
pub(crate) fn push_keyword(text: &mut Vec<u8>, keyword: Keyword) -> Result<(), NoMemory>
    ensures { OnOk result (Appends (word keyword ∷ []) text.old.items text.new.items) }
{
    text.extend_from_slice(keyword_spelling(keyword).as_bytes())?;
    text.push(b' ')?;
    Ok(())
}

/// Appends a sign.
pub(crate) fn push_sign(text: &mut Vec<u8>, sign: Sign) -> Result<(), NoMemory>
    ensures { OnOk result (Appends (sign_token sign ∷ []) text.old.items text.new.items) }
{
    text.extend_from_slice(sign_spelling(sign).as_bytes())?;
    text.push(blank_behind(sign))?;
    Ok(())
}

/// Appends a name.
pub(crate) fn push_name(text: &mut Vec<u8>, name: &Named) -> Result<(), NoMemory>
    ensures { OnOk result (Appends (name_token name.now ∷ []) text.old.items text.new.items) }
{
    text.extend_from_slice(name.name.as_bytes())?;
    text.push(b' ')?;
    Ok(())
}

/// Appends a number.
pub(crate) fn push_number(alloc: Global, text: &mut Vec<u8>, number: u64) -> Result<(), NoMemory>
    ensures { OnOk result (Appends (number_token number ∷ []) text.old.items text.new.items) }
{
    let digits = number.to_string(alloc)?;
    text.extend_from_slice(digits.as_bytes())?;
    text.push(b' ')?;
    Ok(())
}

/// Appends a value, with a minus where it is below 0.
pub(crate) fn push_integer(alloc: Global, text: &mut Vec<u8>, value: i64) -> Result<(), NoMemory>
    ensures { OnOk result (Appends (integer_tokens value) text.old.items text.new.items) }
{
    if value < 0 {
        push_sign(text, Sign::Minus)?;
    }
    push_number(alloc, text, value.unsigned_abs())
}
