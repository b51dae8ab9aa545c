//! Hints: what is said of a token that cannot come, by what could come in its place.
ghost use Rattle.std.specs.Prelude.{◌≡◌, ◌++◌, OnOk, map};
ghost use Rattle.ppm_grammar.specs.Predictive.{same_kind};
ghost use Rattle.ppm_rows.specs.Kinds.{Name, Word, Mark};
ghost use Rattle.ppm_rows.specs.Language.{language};
ghost use Rattle.ppm_expected.specs.Language.{terminal_of};
ghost use Rattle.ppm_explain.specs.Hints.{comes as comes_in, word_hint, kind_hint, hint_text, no_name};
ghost use Rattle.ppm_explain.specs.Hints.{is_behind_name as behind_name, is_behind_give as behind_give};
ghost use Rattle.ppm_explain.specs.Hints.{place_note as note_of_place, word_advice as advice_of_word};
ghost use Rattle.ppm_explain.specs.Hints.{call_note as note_of_call, change_note as note_of_change};
ghost use Rattle.ppm_explain.specs.Hints.{assign_note as note_of_assign};
ghost use Rattle.ppm_explain.specs.Hints.{comparison_note as note_of_comparison};
ghost use Rattle.ppm_explain.specs.Hints.{semicolon_note as note_of_semicolon};
ghost use Rattle.ppm_explain.specs.Hints.{sign_hint as hint_of_sign};
ghost use Rattle.ppm_explain.specs.Words.{token_in};

use crate::words::{push_four, push_word, token_at};
use ppm_expected::Terminal;
use ppm_printer::keyword_spelling;
use ppm_text::{Keyword, Kind, Sign, Token};
use ppm_words::NoMemory;

/// Whether two kinds of tokens are one.
fn is_same(kind: Terminal, other: Terminal) -> bool
    ensures { result ≡ same_kind language (terminal_of kind) (terminal_of other) }
{
    kind == other
}

/// Whether a kind is one of those that could come.
fn comes(wanted: Terminal, terminals: &[Terminal]) -> bool
    ensures { result ≡ comes_in (terminal_of wanted) (map terminal_of terminals.now) }
{
    let mut left = terminals;
    'terminals: while let Some((terminal, rest)) = left.split_first() {
        if is_same(*terminal, wanted) {
            return true;
        }
        left = rest;
    }
    false
}

/// Whether this sign could come.
fn sign_comes(sign: Sign, terminals: &[Terminal]) -> bool
    ensures { result ≡ comes_in (Mark sign) (map terminal_of terminals.now) }
{
    comes(Terminal::Mark(sign), terminals)
}

/// Whether this word could come.
fn word_comes(keyword: Keyword, terminals: &[Terminal]) -> bool
    ensures { result ≡ comes_in (Word keyword) (map terminal_of terminals.now) }
{
    comes(Terminal::Word(keyword), terminals)
}

/// Whether a name could come.
fn name_comes(terminals: &[Terminal]) -> bool
    ensures { result ≡ comes_in Name (map terminal_of terminals.now) }
{
    comes(Terminal::Name, terminals)
}

/// Whether a name alone stands in front, as where an assignment begins.
fn is_behind_name(terminals: &[Terminal]) -> bool
    ensures { result ≡ behind_name (map terminal_of terminals.now) }
{
    sign_comes(Sign::Assign, terminals) && sign_comes(Sign::OpenBracket, terminals)
}

/// Whether a body has to end: its `give` stands in front.
fn is_behind_give(terminals: &[Terminal]) -> bool
    ensures { result ≡ behind_give (map terminal_of terminals.now) }
{
    sign_comes(Sign::CloseBrace, terminals) && !name_comes(terminals)
}

/// What is said of a place, by what could come there.
fn place_note(terminals: &[Terminal]) -> &'static str
    ensures { result.now ≡ note_of_place (map terminal_of terminals.now) }
{
    if sign_comes(Sign::Semicolon, terminals) {
        return "note: a `;` may be missing in front of this\n";
    }
    if is_behind_name(terminals) {
        return "note: the word in front of this is none of the language, so it begins an assignment\n";
    }
    if word_comes(Keyword::Array, terminals) {
        return "note: only `array`, `proc` and `input` stand outside of procedures; one `}` in front of this may be too many\n";
    }
    if is_behind_give(terminals) {
        return "note: `give` comes once, as the last of a procedure\n";
    }
    if sign_comes(Sign::OpenBrace, terminals) {
        return "note: a block comes here, in `{` and `}`; for `else if` write `else { if .. }`\n";
    }
    ""
}

/// What is said of some words where a name could come, to the end of the line.
fn word_advice(keyword: Keyword) -> &'static str
    ensures { result.now ≡ advice_of_word keyword }
{
    match keyword {
        Keyword::Call => { "; `x = call f();` takes the value of a call, where `x` is declared\n" }
        Keyword::Array | Keyword::Proc | Keyword::Input => {
            "; a block that is open ends with `}`\n"
        }
        Keyword::Int => "; a name is declared by `let x = 0;`\n",
        Keyword::Give => "; it comes once, as the last of a procedure\n",
        Keyword::Let
        | Keyword::Mut
        | Keyword::Ref
        | Keyword::If
        | Keyword::Else
        | Keyword::While
        | Keyword::Fork
        | Keyword::And
        | Keyword::Split
        | Keyword::At
        | Keyword::Into
        | Keyword::Len
        | Keyword::Each
        | Keyword::In => "\n",
    }
}

/// Appends what is said of a word where a name could come.
fn push_no_name(text: &mut Vec<u8>, keyword: Keyword) -> Result<(), NoMemory>
    ensures { OnOk result (text.new.items ≡ text.old.items ++ no_name keyword) }
{
    push_four(
        text,
        "note: `",
        keyword_spelling(keyword),
        "` is a word of the language, and no name",
        word_advice(keyword),
    )
}

/// Appends what is said of a word.
fn push_word_hint(
    text: &mut Vec<u8>,
    terminals: &[Terminal],
    keyword: Keyword,
) -> Result<(), NoMemory>
    ensures { OnOk result (text.new.items
        ≡ text.old.items ++ word_hint (map terminal_of terminals.now) keyword) }
{
    if name_comes(terminals) {
        return push_no_name(text, keyword);
    }
    push_word(text, place_note(terminals))
}

/// What is said of `(` where a statement begins, or after an operand.
fn call_note(terminals: &[Terminal]) -> &'static str
    ensures { result.now ≡ note_of_call (map terminal_of terminals.now) }
{
    if is_behind_name(terminals) {
        return "note: a call stands alone: `call f();`, `x = call f();`, or `fork f() and g();`\n";
    }
    if sign_comes(Sign::Plus, terminals) {
        return "note: a call stands alone: `call f();`, `x = call f();`, or `fork f() and g();`\n";
    }
    ""
}

/// What is said of `+`, `-`, `*` and `%` after what is assigned.
fn change_note(terminals: &[Terminal]) -> &'static str
    ensures { result.now ≡ note_of_change (map terminal_of terminals.now) }
{
    if sign_comes(Sign::Assign, terminals) {
        "note: a name is changed by `x = x + 1;`\n"
    } else {
        ""
    }
}

/// What is said of `=` where `==` could come.
fn assign_note(terminals: &[Terminal]) -> &'static str
    ensures { result.now ≡ note_of_assign (map terminal_of terminals.now) }
{
    if sign_comes(Sign::Equal, terminals) {
        "note: `==` compares, and `=` gives a value\n"
    } else {
        ""
    }
}

/// What is said of a comparison.
fn comparison_note(terminals: &[Terminal]) -> &'static str
    ensures { result.now ≡ note_of_comparison (map terminal_of terminals.now) }
{
    if sign_comes(Sign::Assign, terminals) {
        return "note: `=` gives a value, and `==` compares\n";
    }
    if sign_comes(Sign::Plus, terminals) {
        return "note: at most one comparison stands in an expression without brackets\n";
    }
    ""
}

/// What is said of `;`.
fn semicolon_note(terminals: &[Terminal]) -> &'static str
    ensures { result.now ≡ note_of_semicolon (map terminal_of terminals.now) }
{
    if is_behind_name(terminals) {
        return place_note(terminals);
    }
    if word_comes(Keyword::Let, terminals) {
        return "note: no `;` stands after a block, nor after another `;`\n";
    }
    if word_comes(Keyword::Array, terminals) {
        return "note: no `;` stands after a procedure, nor after another `;`\n";
    }
    ""
}

/// What is said of a sign.
fn sign_hint(terminals: &[Terminal], sign: Sign) -> &'static str
    ensures { result.now ≡ hint_of_sign (map terminal_of terminals.now) sign }
{
    match sign {
        Sign::OpenParen => call_note(terminals),
        Sign::Divide => "note: a comment begins with `#`\n",
        Sign::Plus | Sign::Minus | Sign::Times | Sign::Remainder => change_note(terminals),
        Sign::OpenBrace | Sign::CloseBrace => place_note(terminals),
        Sign::Semicolon => semicolon_note(terminals),
        Sign::Assign => assign_note(terminals),
        Sign::Equal
        | Sign::NotEqual
        | Sign::Less
        | Sign::LessEqual
        | Sign::Greater
        | Sign::GreaterEqual => comparison_note(terminals),
        Sign::OpenBracket
        | Sign::CloseBracket
        | Sign::CloseParen
        | Sign::Comma
        | Sign::Both
        | Sign::Either => "",
    }
}

/// Appends what is said of a token that cannot come.
fn push_kind_hint(text: &mut Vec<u8>, terminals: &[Terminal], kind: &Kind) -> Result<(), NoMemory>
    ensures { OnOk result (text.new.items
        ≡ text.old.items ++ kind_hint (map terminal_of terminals.now) kind.now) }
{
    match kind {
        Kind::Name(_) => push_word(text, place_note(terminals)),
        Kind::Number(_) => push_word(text, place_note(terminals)),
        Kind::Keyword(keyword) => push_word_hint(text, terminals, *keyword),
        Kind::Sign(sign) => push_word(text, sign_hint(terminals, *sign)),
    }
}

/// Appends what is said of the token at a place, if one begins there.
pub(crate) fn push_hint(
    text: &mut Vec<u8>,
    terminals: &[Terminal],
    tokens: &[Token],
    place: u32,
) -> Result<(), NoMemory>
    ensures { OnOk result (text.new.items
        ≡ text.old.items ++ hint_text (map terminal_of terminals.now) (token_in place tokens.now)) }
{
    match token_at(tokens, place) {
        None => Ok(()),
        Some(token) => push_kind_hint(text, terminals, &token.kind),
    }
}
