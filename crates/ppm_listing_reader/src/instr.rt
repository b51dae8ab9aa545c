//! The instructions of lines.
ghost use Rattle.std.specs.Prelude.{◌≡◌};
ghost use Rattle.ppm_listing_reader.specs.Forms.{instr_of as of_line, constant as constant_instr};
ghost use Rattle.ppm_listing_reader.specs.Forms.{trapping as trapping_instr};

use crate::form::token_at;
use crate::operand::{constant_of, number_at, register_at, slot_of, trap_of};
use crate::token::Token;
use ppm_code::{End, Instr, Register};
use ppm_listing::Keyword;
use ppm_words::Trap;

/// The instruction of a constant, if it is there.
fn constant(to: Register, value: Option<i64>) -> Option<Instr>
    ensures { result ≡ constant_instr to value }
{
    match value {
        Some(value) => Some(Instr::Const { to, value }),
        None => None,
    }
}

/// The end of a trap, if it is there.
fn trapping(trap: Option<Trap>, line: u32) -> Option<Instr>
    ensures { result ≡ trapping_instr trap line }
{
    match trap {
        Some(trap) => Some(Instr::Ends(End::Trap { trap, line })),
        None => None,
    }
}

/// The instruction of a line, if its constant or trap is there.
pub(crate) fn instr_of(keyword: Keyword, tokens: &[Token]) -> Option<Instr>
    ensures { result ≡ of_line keyword tokens.now }
{
    match keyword {
        Keyword::Ppm
        | Keyword::Root
        | Keyword::Proc
        | Keyword::Slots
        | Keyword::Entry
        | Keyword::Capsule => None,
        Keyword::Const => constant(register_at(tokens, 0), constant_of(token_at(tokens, 1))),
        Keyword::Move => Some(Instr::Move {
            to: register_at(tokens, 0),
            from: register_at(tokens, 1),
        }),
        Keyword::Add => Some(Instr::Add {
            to: register_at(tokens, 0),
            left: register_at(tokens, 1),
            right: register_at(tokens, 2),
            line: number_at(tokens, 3),
        }),
        Keyword::Sub => Some(Instr::Sub {
            to: register_at(tokens, 0),
            left: register_at(tokens, 1),
            right: register_at(tokens, 2),
            line: number_at(tokens, 3),
        }),
        Keyword::Mul => Some(Instr::Mul {
            to: register_at(tokens, 0),
            left: register_at(tokens, 1),
            right: register_at(tokens, 2),
            line: number_at(tokens, 3),
        }),
        Keyword::Div => Some(Instr::Div {
            to: register_at(tokens, 0),
            left: register_at(tokens, 1),
            right: register_at(tokens, 2),
            line: number_at(tokens, 3),
        }),
        Keyword::Rem => Some(Instr::Rem {
            to: register_at(tokens, 0),
            left: register_at(tokens, 1),
            right: register_at(tokens, 2),
            line: number_at(tokens, 3),
        }),
        Keyword::Equal => Some(Instr::Equal {
            to: register_at(tokens, 0),
            left: register_at(tokens, 1),
            right: register_at(tokens, 2),
        }),
        Keyword::NotEqual => Some(Instr::NotEqual {
            to: register_at(tokens, 0),
            left: register_at(tokens, 1),
            right: register_at(tokens, 2),
        }),
        Keyword::Less => Some(Instr::Less {
            to: register_at(tokens, 0),
            left: register_at(tokens, 1),
            right: register_at(tokens, 2),
        }),
        Keyword::AtMost => Some(Instr::AtMost {
            to: register_at(tokens, 0),
            left: register_at(tokens, 1),
            right: register_at(tokens, 2),
        }),
        Keyword::Len => Some(Instr::Len {
            to: register_at(tokens, 0),
            region: register_at(tokens, 1),
        }),
        Keyword::CutLeft => Some(Instr::CutLeft {
            to: register_at(tokens, 0),
            region: register_at(tokens, 1),
            at: register_at(tokens, 2),
            line: number_at(tokens, 3),
        }),
        Keyword::CutRight => Some(Instr::CutRight {
            to: register_at(tokens, 0),
            region: register_at(tokens, 1),
            at: register_at(tokens, 2),
            line: number_at(tokens, 3),
        }),
        Keyword::LoadSlot => Some(Instr::LoadSlot {
            to: register_at(tokens, 0),
            slot: number_at(tokens, 1),
        }),
        Keyword::StoreCur => Some(Instr::StoreCur {
            slot: number_at(tokens, 0),
            from: register_at(tokens, 1),
        }),
        Keyword::Give => Some(Instr::Give {
            from: register_at(tokens, 0),
        }),
        Keyword::Get => Some(Instr::Get {
            to: register_at(tokens, 0),
            region: register_at(tokens, 1),
            index: register_at(tokens, 2),
            line: number_at(tokens, 3),
        }),
        Keyword::Put => Some(Instr::Put {
            region: register_at(tokens, 0),
            index: register_at(tokens, 1),
            from: register_at(tokens, 2),
            line: number_at(tokens, 3),
        }),
        Keyword::BranchZero => Some(Instr::BranchZero {
            tested: register_at(tokens, 0),
            target: number_at(tokens, 1),
        }),
        Keyword::BranchNonZero => Some(Instr::BranchNonZero {
            tested: register_at(tokens, 0),
            target: number_at(tokens, 1),
        }),
        Keyword::Room => Some(Instr::Room {
            words: number_at(tokens, 0),
        }),
        Keyword::StoreNew => Some(Instr::StoreNew {
            offset: number_at(tokens, 0),
            from: register_at(tokens, 1),
        }),
        Keyword::Next => Some(Instr::Ends(End::Next {
            capsule: number_at(tokens, 0),
        })),
        Keyword::End => Some(Instr::Ends(End::Finish)),
        Keyword::Trap => trapping(trap_of(number_at(tokens, 0)), number_at(tokens, 1)),
        Keyword::Call => Some(Instr::Ends(End::Call {
            procedure: number_at(tokens, 0),
            capsule: number_at(tokens, 1),
            to: None,
        })),
        Keyword::CallTo => Some(Instr::Ends(End::Call {
            procedure: number_at(tokens, 0),
            capsule: number_at(tokens, 1),
            to: Some(number_at(tokens, 2)),
        })),
        Keyword::Fork => Some(Instr::Ends(End::Fork {
            left: number_at(tokens, 0),
            right: number_at(tokens, 1),
            capsule: number_at(tokens, 2),
            left_to: None,
            right_to: None,
        })),
        Keyword::ForkTo => Some(Instr::Ends(End::Fork {
            left: number_at(tokens, 0),
            right: number_at(tokens, 1),
            capsule: number_at(tokens, 2),
            left_to: slot_of(token_at(tokens, 3)),
            right_to: slot_of(token_at(tokens, 4)),
        })),
    }
}
