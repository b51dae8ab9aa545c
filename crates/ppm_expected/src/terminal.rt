//! The kinds of tokens that the grammar tells apart.
ghost use Rattle.std.specs.Prelude.{◌≡◌};
ghost use Rattle.ppm_grammar.specs.Predictive.{same_kind};
ghost use Rattle.ppm_rows.specs.Kinds.{terminal};
ghost use Rattle.ppm_rows.specs.Language.{language};
ghost use Rattle.ppm_expected.specs.Language.{terminal_of};

use ppm_text::{Keyword, Kind, Sign};

/// A kind of tokens: a name, a number, one of the keywords, or one of the signs.
#[derive(Clone, Copy, Debug, PartialEq, Eq)]
pub enum Terminal {
    /// A name that is no keyword.
    Name,
    /// A number.
    Number,
    /// This keyword.
    Word(Keyword),
    /// This sign.
    Mark(Sign),
}

/// All kinds, in their order.
pub(crate) const TERMINALS: [Terminal; 44] = [
    Terminal::Name,
    Terminal::Number,
    Terminal::Word(Keyword::Array),
    Terminal::Word(Keyword::Proc),
    Terminal::Word(Keyword::Input),
    Terminal::Word(Keyword::Mut),
    Terminal::Word(Keyword::Ref),
    Terminal::Word(Keyword::Int),
    Terminal::Word(Keyword::Let),
    Terminal::Word(Keyword::If),
    Terminal::Word(Keyword::Else),
    Terminal::Word(Keyword::While),
    Terminal::Word(Keyword::Call),
    Terminal::Word(Keyword::Fork),
    Terminal::Word(Keyword::And),
    Terminal::Word(Keyword::Split),
    Terminal::Word(Keyword::At),
    Terminal::Word(Keyword::Into),
    Terminal::Word(Keyword::Len),
    Terminal::Word(Keyword::Each),
    Terminal::Word(Keyword::In),
    Terminal::Word(Keyword::Give),
    Terminal::Mark(Sign::OpenBracket),
    Terminal::Mark(Sign::CloseBracket),
    Terminal::Mark(Sign::OpenParen),
    Terminal::Mark(Sign::CloseParen),
    Terminal::Mark(Sign::OpenBrace),
    Terminal::Mark(Sign::CloseBrace),
    Terminal::Mark(Sign::Semicolon),
    Terminal::Mark(Sign::Comma),
    Terminal::Mark(Sign::Assign),
    Terminal::Mark(Sign::Plus),
    Terminal::Mark(Sign::Minus),
    Terminal::Mark(Sign::Times),
    Terminal::Mark(Sign::Divide),
    Terminal::Mark(Sign::Remainder),
    Terminal::Mark(Sign::Equal),
    Terminal::Mark(Sign::NotEqual),
    Terminal::Mark(Sign::Less),
    Terminal::Mark(Sign::LessEqual),
    Terminal::Mark(Sign::Greater),
    Terminal::Mark(Sign::GreaterEqual),
    Terminal::Mark(Sign::Both),
    Terminal::Mark(Sign::Either),
];

impl Terminal {
    /// The kind of a token.
    pub(crate) fn of(kind: &Kind) -> Terminal
        ensures { terminal_of result ≡ terminal kind.now }
    {
        match kind {
            Kind::Name(_) => Terminal::Name,
            Kind::Number(_) => Terminal::Number,
            Kind::Keyword(keyword) => Terminal::Word(*keyword),
            Kind::Sign(sign) => Terminal::Mark(*sign),
        }
    }

    /// Whether the two kinds are one.
    pub(crate) fn is(self, other: Terminal) -> bool
        ensures { result ≡ same_kind language (terminal_of self) (terminal_of other) }
    {
        self == other
    }
}
