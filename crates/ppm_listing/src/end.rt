//! The lines of ends.
ghost use Rattle.std.specs.Prelude.{◌≡◌, ◌++◌, OnOk};
ghost use Rattle.ppm_listing.specs.Tokens.{line_text};
ghost use Rattle.ppm_listing.specs.Correct.{LineFits};
ghost use Rattle.ppm_listing.specs.Listing.{end_line, slot_token as token_of_slot};
ghost use Rattle.ppm_listing.specs.Listing.{trap_number as number_of_trap};

use crate::keyword::Keyword;
use crate::line::{number_token, push_line};
use crate::token::Token;
use ppm_code::End;
use ppm_words::{NoMemory, Trap};

/// The token of a slot, if one is named.
fn slot_token(slot: Option<u32>) -> Token
    ensures { result ≡ token_of_slot slot }
{
    match slot {
        Some(slot) => number_token(slot),
        None => Token::Absent,
    }
}

/// The number of a trap, from 1 to 4.
fn trap_number(trap: Trap) -> u32
    ensures { result ≡ number_of_trap trap }
{
    match trap {
        Trap::Overflow => 1,
        Trap::DivZero => 2,
        Trap::Index => 3,
        Trap::Split => 4,
    }
}

/// Appends the line of an end.
pub(crate) fn push_end(text: &mut Vec<u8>, end: End) -> Result<(), NoMemory>
    ensures text { OnOk result (text.new.items ≡ text.old.items ++ line_text (end_line end)) }
    ensures fits { LineFits (end_line end) }
{
    match end {
        End::Next { capsule } => push_line(text, Keyword::Next, &[number_token(capsule)]),
        End::Finish => push_line(text, Keyword::End, &[]),
        End::Trap { trap, line } => push_line(
            text,
            Keyword::Trap,
            &[number_token(trap_number(trap)), number_token(line)],
        ),
        End::Call {
            procedure,
            capsule,
            to: None,
        } => push_line(
            text,
            Keyword::Call,
            &[number_token(procedure), number_token(capsule)],
        ),
        End::Call {
            procedure,
            capsule,
            to: Some(slot),
        } => push_line(
            text,
            Keyword::CallTo,
            &[
                number_token(procedure),
                number_token(capsule),
                number_token(slot),
            ],
        ),
        End::Fork {
            left,
            right,
            capsule,
            left_to: None,
            right_to: None,
        } => push_line(
            text,
            Keyword::Fork,
            &[
                number_token(left),
                number_token(right),
                number_token(capsule),
            ],
        ),
        End::Fork {
            left,
            right,
            capsule,
            left_to: None,
            right_to: Some(slot),
        } => push_line(
            text,
            Keyword::ForkTo,
            &[
                number_token(left),
                number_token(right),
                number_token(capsule),
                Token::Absent,
                number_token(slot),
            ],
        ),
        End::Fork {
            left,
            right,
            capsule,
            left_to: Some(slot),
            right_to,
        } => push_line(
            text,
            Keyword::ForkTo,
            &[
                number_token(left),
                number_token(right),
                number_token(capsule),
                number_token(slot),
                slot_token(right_to),
            ],
        ),
    }
}
