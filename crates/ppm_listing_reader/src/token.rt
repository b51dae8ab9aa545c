//! The tokens of a line as they are written, with numbers of any size.
ghost use Rattle.std.specs.Prelude.{◌≡◌, ◌∷◌, ℕ, List, OnOk};
ghost use Rattle.ppm_listing_reader.specs.Tokens.{keyword_of, keywords, named as named_token, spelled};
ghost use Rattle.ppm_listing_reader.specs.Tokens.{minus as minus_token, token_of};
ghost use Rattle.ppm_listing_reader.specs.Forms.{part_in, line_of, may_go_on as goes_on};

use ppm_listing::Keyword;
use ppm_pieces::{is_digit, is_numeral, same_bytes, split_once, value};
use ppm_words::NoMemory;

/// What stands between two spaces of a line. A number past 2^64 - 1 stands as that one: no range
/// goes so far.
#[derive(Clone, Copy, Debug)]
pub enum Token {
    /// A keyword.
    Name(Keyword),
    /// A register by its number, as `r7`.
    Register(u64),
    /// A number from 0 on, in decimal.
    Number(u64),
    /// A number below 0, by how far.
    Negative(u64),
    /// `-`, where no slot is named.
    Absent,
    /// Anything else.
    Other,
}

/// The first of some keywords that has this spelling.
pub fn first_spelled(mut table: &[Keyword], bytes: &[u8]) -> Option<Keyword>
    ensures { result ≡ spelled table.entry.now bytes.now }
{
    while let [keyword, rest @ ..] = table {
        if same_bytes(keyword.spelling().as_bytes(), bytes) {
            return Some(*keyword);
        }
        table = rest;
    }
    None
}

/// The keywords whose spelling begins with a byte.
fn beginning_with(first: u8) -> &'static [Keyword]
    ensures { (rest : List ℕ) → spelled result.now (first ∷ rest) ≡ spelled keywords (first ∷ rest) }
{
    match first {
        b'a' => &[Keyword::Add],
        b'b' => &[Keyword::BranchZero, Keyword::BranchNonZero],
        b'c' => &[
            Keyword::Capsule,
            Keyword::Const,
            Keyword::CutLeft,
            Keyword::CutRight,
            Keyword::Call,
            Keyword::CallTo,
        ],
        b'd' => &[Keyword::Div],
        b'e' => &[Keyword::Entry, Keyword::Equal, Keyword::End],
        b'f' => &[Keyword::Fork, Keyword::ForkTo],
        b'g' => &[Keyword::Give, Keyword::Get],
        b'l' => &[
            Keyword::Less,
            Keyword::AtMost,
            Keyword::Len,
            Keyword::LoadSlot,
        ],
        b'm' => &[Keyword::Move, Keyword::Mul],
        b'n' => &[Keyword::NotEqual, Keyword::Next],
        b'p' => &[Keyword::Ppm, Keyword::Proc, Keyword::Put],
        b'r' => &[Keyword::Root, Keyword::Rem, Keyword::Room],
        b's' => &[
            Keyword::Slots,
            Keyword::Sub,
            Keyword::StoreCur,
            Keyword::StoreNew,
        ],
        b't' => &[Keyword::Trap],
        _ => &[],
    }
}

/// The keyword of this spelling: those that begin with its first byte are compared with it.
fn keyword(bytes: &[u8]) -> Option<Keyword>
    ensures { result ≡ keyword_of bytes.now }
{
    match bytes {
        [] => None,
        [first, ..] => first_spelled(beginning_with(*first), bytes),
    }
}

/// The token of a keyword, if it is one.
fn named(keyword: Option<Keyword>) -> Token
    ensures { result ≡ named_token keyword }
{
    match keyword {
        Some(keyword) => Token::Name(keyword),
        None => Token::Other,
    }
}

/// The token after a minus.
fn minus(bytes: &[u8]) -> Token
    ensures { result ≡ minus_token bytes.now }
{
    match bytes {
        [] => Token::Absent,
        [first, ..] => {
            if is_numeral(bytes) && !(*first == b'0') {
                Token::Negative(value(bytes))
            } else {
                Token::Other
            }
        }
    }
}

/// The token of a word: of what stands between two spaces of a line.
pub fn token_in(word: &[u8]) -> Token
    ensures { result ≡ token_of word.now }
{
    match word {
        [] => Token::Other,
        [first, rest @ ..] => {
            if *first == b'-' {
                minus(rest)
            } else if is_digit(*first) {
                if is_numeral(word) {
                    Token::Number(value(word))
                } else {
                    Token::Other
                }
            } else if *first == b'r' && is_numeral(rest) {
                Token::Register(value(rest))
            } else {
                named(keyword(word))
            }
        }
    }
}

/// Whether a token may stand after eight others.
fn may_go_on(tokens: &[Token], token: Token) -> bool
    ensures { result ≡ goes_on tokens.now token }
{
    match tokens {
        [Token::Name(Keyword::Root), ..] => matches!(token, Token::Number(_)),
        _ => false,
    }
}

/// Puts the tokens of a line in place of others; none where it has so many that it has no form.
pub(crate) fn read_tokens(line: &[u8], tokens: &mut Vec<Token>) -> Result<(), NoMemory>
    ensures { OnOk result (part_in tokens.new.items ≡ line_of line.now) }
{
    tokens.clear();
    let mut left = line;
    while let Some((word, rest)) = split_once(left, b' ') {
        let token = token_in(word);
        if tokens.len() >= 8 && !may_go_on(tokens, token) {
            tokens.clear();
            return Ok(());
        }
        tokens.push(token)?;
        left = rest;
    }
    tokens.push(token_in(left))?;
    Ok(())
}
