//! The forms of lines.
ghost use Rattle.std.specs.Prelude.{◌≡◌};
ghost use Rattle.std.specs.List.{list_all};
ghost use Rattle.ppm_listing.specs.declared.keyword.Keyword.TheVariants as keyword;
ghost use Rattle.ppm_listing_reader.specs.Forms.{is_of as is_of_sort, are_of as are_of_sorts};
ghost use Rattle.ppm_listing_reader.specs.Forms.{has_form as is_form, is_number as is_number_token};
ghost use Rattle.ppm_listing_reader.specs.Forms.{is_absent as is_absent_token, token_at as at};
ghost use Rattle.ppm_listing_reader.specs.Forms.{sorts as sorts_of};

use crate::token::Token;
use ppm_listing::Keyword;

/// What a token after a keyword has to be.
#[derive(Clone, Copy, Debug)]
pub enum Sort {
    /// A register.
    Register,
    /// A number from 0 on.
    Number,
    /// A number, which may be below 0.
    Constant,
    /// A number, or `-`.
    Slot,
    /// The number 1.
    Version,
    /// The keyword `slots`.
    Slots,
    /// The keyword `entry`.
    Entry,
    /// The keyword `proc`.
    Proc,
}

/// Whether a token is of a sort.
pub fn is_of(sort: Sort, token: Token) -> bool
    ensures { result ≡ is_of_sort sort token }
{
    match (sort, token) {
        (Sort::Register, Token::Register(_))
        | (Sort::Number, Token::Number(_))
        | (Sort::Constant, Token::Number(_))
        | (Sort::Constant, Token::Negative(_))
        | (Sort::Slot, Token::Number(_))
        | (Sort::Slot, Token::Absent)
        | (Sort::Slots, Token::Name(Keyword::Slots))
        | (Sort::Entry, Token::Name(Keyword::Entry))
        | (Sort::Proc, Token::Name(Keyword::Proc)) => true,
        (Sort::Version, Token::Number(n)) => n == 1,
        _ => false,
    }
}

/// Whether tokens are of sorts, one of each.
fn are_of(mut sorts: &[Sort], mut tokens: &[Token]) -> bool
    ensures { result ≡ are_of_sorts sorts.entry.now tokens.entry.now }
{
    while let [sort, more @ ..] = sorts {
        match tokens {
            [] => return false,
            [token, rest @ ..] => {
                if !is_of(*sort, *token) {
                    return false;
                }
                sorts = more;
                tokens = rest;
            }
        }
    }
    match tokens {
        [] => true,
        [_, ..] => false,
    }
}

/// The token at a place.
pub(crate) fn token_at(tokens: &[Token], place: usize) -> Token
    ensures { result ≡ at tokens.now place }
{
    match tokens.get(place) {
        Some(token) => *token,
        None => Token::Other,
    }
}

fn is_absent(token: Token) -> bool
    ensures { result ≡ is_absent_token token }
{
    matches!(token, Token::Absent)
}

fn is_number(token: Token) -> bool
    ensures { result ≡ is_number_token token }
{
    matches!(token, Token::Number(_))
}

/// Whether all tokens are numbers.
fn are_numbers(tokens: &[Token]) -> bool
    ensures { result ≡ list_all is_number_token tokens.now }
{
    let mut left = tokens;
    while let [token, rest @ ..] = left {
        if !is_number(*token) {
            return false;
        }
        left = rest;
    }
    true
}

/// What stands after a keyword at the front of a line, a sort for each token. The line of the root
/// has more numbers, and that of `forkto` names one slot at least.
pub fn sorts(keyword: Keyword) -> &'static [Sort]
    ensures { result.now ≡ sorts_of keyword }
{
    match keyword {
        Keyword::Ppm => &[Sort::Version],
        Keyword::Proc => &[
            Sort::Number,
            Sort::Slots,
            Sort::Number,
            Sort::Entry,
            Sort::Number,
        ],
        Keyword::Slots | Keyword::Entry | Keyword::End => &[],
        Keyword::Capsule => &[Sort::Number, Sort::Proc, Sort::Number],
        Keyword::Const => &[Sort::Register, Sort::Constant],
        Keyword::Move | Keyword::Len => &[Sort::Register, Sort::Register],
        Keyword::Add
        | Keyword::Sub
        | Keyword::Mul
        | Keyword::Div
        | Keyword::Rem
        | Keyword::CutLeft
        | Keyword::CutRight
        | Keyword::Get
        | Keyword::Put => &[Sort::Register, Sort::Register, Sort::Register, Sort::Number],
        Keyword::Equal | Keyword::NotEqual | Keyword::Less | Keyword::AtMost => &[
            Sort::Register,
            Sort::Register,
            Sort::Register,
        ],
        Keyword::LoadSlot | Keyword::BranchZero | Keyword::BranchNonZero => &[
            Sort::Register,
            Sort::Number,
        ],
        Keyword::StoreCur | Keyword::StoreNew => &[Sort::Number, Sort::Register],
        Keyword::Give => &[Sort::Register],
        Keyword::Root | Keyword::Room | Keyword::Next => &[Sort::Number],
        Keyword::Trap | Keyword::Call => &[Sort::Number, Sort::Number],
        Keyword::CallTo | Keyword::Fork => &[Sort::Number, Sort::Number, Sort::Number],
        Keyword::ForkTo => &[
            Sort::Number,
            Sort::Number,
            Sort::Number,
            Sort::Slot,
            Sort::Slot,
        ],
    }
}

/// Whether tokens may stand after a keyword at the front of a line.
pub(crate) fn has_form(keyword: Keyword, tokens: &[Token]) -> bool
    ensures { result ≡ is_form keyword tokens.now }
{
    match keyword {
        Keyword::Root => !tokens.is_empty() && are_numbers(tokens),
        Keyword::Slots | Keyword::Entry => false,
        Keyword::ForkTo => is_forkto(tokens),
        Keyword::Ppm
        | Keyword::Proc
        | Keyword::Capsule
        | Keyword::Const
        | Keyword::Move
        | Keyword::Add
        | Keyword::Sub
        | Keyword::Mul
        | Keyword::Div
        | Keyword::Rem
        | Keyword::Equal
        | Keyword::NotEqual
        | Keyword::Less
        | Keyword::AtMost
        | Keyword::Len
        | Keyword::CutLeft
        | Keyword::CutRight
        | Keyword::LoadSlot
        | Keyword::StoreCur
        | Keyword::Give
        | Keyword::Get
        | Keyword::Put
        | Keyword::BranchZero
        | Keyword::BranchNonZero
        | Keyword::Room
        | Keyword::StoreNew
        | Keyword::Next
        | Keyword::End
        | Keyword::Trap
        | Keyword::Call
        | Keyword::CallTo
        | Keyword::Fork => are_of(sorts(keyword), tokens),
    }
}

/// Whether tokens may stand after `forkto`.
fn is_forkto(tokens: &[Token]) -> bool
    ensures { result ≡ is_form keyword.ForkTo tokens.now }
{
    are_of(sorts(Keyword::ForkTo), tokens)
        && !(is_absent(token_at(tokens, 3)) && is_absent(token_at(tokens, 4)))
}
