//! The lines of instructions.
ghost use Rattle.std.specs.Prelude.{◌≡◌, ◌++◌, OnOk};
ghost use Rattle.ppm_listing.specs.Tokens.{line_text};
ghost use Rattle.ppm_listing.specs.Correct.{LineFits};
ghost use Rattle.ppm_listing.specs.Listing.{instr_line};

use crate::end::push_end;
use crate::keyword::Keyword;
use crate::line::{number_token, push_line};
use crate::token::Token;
use ppm_code::Instr;
use ppm_words::NoMemory;

/// Appends the line of an instruction.
pub(crate) fn push_instr(text: &mut Vec<u8>, instr: Instr) -> Result<(), NoMemory>
    ensures text { OnOk result (text.new.items ≡ text.old.items ++ line_text (instr_line instr)) }
    ensures fits { LineFits (instr_line instr) }
{
    match instr {
        Instr::Const { to, value } => push_line(
            text,
            Keyword::Const,
            &[Token::Register(to), Token::Number(value)],
        ),
        Instr::Move { to, from } => push_line(
            text,
            Keyword::Move,
            &[Token::Register(to), Token::Register(from)],
        ),
        Instr::Add {
            to,
            left,
            right,
            line,
        } => push_line(
            text,
            Keyword::Add,
            &[
                Token::Register(to),
                Token::Register(left),
                Token::Register(right),
                number_token(line),
            ],
        ),
        Instr::Sub {
            to,
            left,
            right,
            line,
        } => push_line(
            text,
            Keyword::Sub,
            &[
                Token::Register(to),
                Token::Register(left),
                Token::Register(right),
                number_token(line),
            ],
        ),
        Instr::Mul {
            to,
            left,
            right,
            line,
        } => push_line(
            text,
            Keyword::Mul,
            &[
                Token::Register(to),
                Token::Register(left),
                Token::Register(right),
                number_token(line),
            ],
        ),
        Instr::Div {
            to,
            left,
            right,
            line,
        } => push_line(
            text,
            Keyword::Div,
            &[
                Token::Register(to),
                Token::Register(left),
                Token::Register(right),
                number_token(line),
            ],
        ),
        Instr::Rem {
            to,
            left,
            right,
            line,
        } => push_line(
            text,
            Keyword::Rem,
            &[
                Token::Register(to),
                Token::Register(left),
                Token::Register(right),
                number_token(line),
            ],
        ),
        Instr::Equal { to, left, right } => push_line(
            text,
            Keyword::Equal,
            &[
                Token::Register(to),
                Token::Register(left),
                Token::Register(right),
            ],
        ),
        Instr::NotEqual { to, left, right } => push_line(
            text,
            Keyword::NotEqual,
            &[
                Token::Register(to),
                Token::Register(left),
                Token::Register(right),
            ],
        ),
        Instr::Less { to, left, right } => push_line(
            text,
            Keyword::Less,
            &[
                Token::Register(to),
                Token::Register(left),
                Token::Register(right),
            ],
        ),
        Instr::AtMost { to, left, right } => push_line(
            text,
            Keyword::AtMost,
            &[
                Token::Register(to),
                Token::Register(left),
                Token::Register(right),
            ],
        ),
        Instr::Len { to, region } => push_line(
            text,
            Keyword::Len,
            &[Token::Register(to), Token::Register(region)],
        ),
        Instr::CutLeft {
            to,
            region,
            at,
            line,
        } => push_line(
            text,
            Keyword::CutLeft,
            &[
                Token::Register(to),
                Token::Register(region),
                Token::Register(at),
                number_token(line),
            ],
        ),
        Instr::CutRight {
            to,
            region,
            at,
            line,
        } => push_line(
            text,
            Keyword::CutRight,
            &[
                Token::Register(to),
                Token::Register(region),
                Token::Register(at),
                number_token(line),
            ],
        ),
        Instr::LoadSlot { to, slot } => push_line(
            text,
            Keyword::LoadSlot,
            &[Token::Register(to), number_token(slot)],
        ),
        Instr::StoreCur { slot, from } => push_line(
            text,
            Keyword::StoreCur,
            &[number_token(slot), Token::Register(from)],
        ),
        Instr::Give { from } => push_line(text, Keyword::Give, &[Token::Register(from)]),
        Instr::Get {
            to,
            region,
            index,
            line,
        } => push_line(
            text,
            Keyword::Get,
            &[
                Token::Register(to),
                Token::Register(region),
                Token::Register(index),
                number_token(line),
            ],
        ),
        Instr::Put {
            region,
            index,
            from,
            line,
        } => push_line(
            text,
            Keyword::Put,
            &[
                Token::Register(region),
                Token::Register(index),
                Token::Register(from),
                number_token(line),
            ],
        ),
        Instr::BranchZero { tested, target } => push_line(
            text,
            Keyword::BranchZero,
            &[Token::Register(tested), number_token(target)],
        ),
        Instr::BranchNonZero { tested, target } => push_line(
            text,
            Keyword::BranchNonZero,
            &[Token::Register(tested), number_token(target)],
        ),
        Instr::Room { words } => push_line(text, Keyword::Room, &[number_token(words)]),
        Instr::StoreNew { offset, from } => push_line(
            text,
            Keyword::StoreNew,
            &[number_token(offset), Token::Register(from)],
        ),
        Instr::Ends(end) => push_end(text, end),
    }
}
