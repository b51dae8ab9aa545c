//! Where the parser stands, and what is in front of it.
ghost use Rattle.std.specs.Prelude.{◌≡◌, IsTrue, MatchOption, MatchResult};
ghost use Rattle.ppm_tree.specs.declared.mode.Mode.{Mode};
ghost use Rattle.ppm_rows.specs.Kinds.{Word, Mark};
ghost use Rattle.ppm_parser.specs.Fronts.{HasFront, HasAt, HasName, HasNumber, HasLiteral, HasMode};
ghost use Rattle.ppm_parser.specs.Fronts.{HasOperator, Misses, MissesName, MissesNumber};
ghost use Rattle.ppm_parser.specs.Fronts.{MissesMode, NoOperator, NoneWithin};

use crate::room::Room;
use crate::stop::Stop;
use ppm_rows::{Level, operator};
use ppm_text::{Keyword, Kind, Sign, Token};
use ppm_tree::{Mode, Named, Operator};
use std::alloc::Global;

/// Where the parser stands. Its functions take a cursor and give back the one after what they
/// read.
#[derive(Clone, Copy)]
pub struct Cursor<'a> {
    /// How much may still come.
    pub room: Room,
    /// The tokens in front.
    pub tokens: &'a [Token],
}

impl<'a> Cursor<'a> {
    /// The place of the sign in front, and the cursor after it.
    pub fn take(self, sign: Sign) -> Result<(u32, Cursor<'a>), Stop>
        ensures { MatchResult result
            (λ r. HasAt (Mark sign) self.entry.tokens.now r.0 r.1.tokens.now
            × (r.1.room ≡ self.entry.room))
            (Misses (Mark sign) self.entry.tokens.now) }
    {
        match self.tokens {
            [
                Token {
                    kind: Kind::Sign(s),
                    place,
                    ..
                },
                tokens @ ..,
            ] if *s == sign => Ok((*place, Cursor { tokens, ..self })),
            [token, ..] => Err(Stop::Expected(token.place)),
            [] => Err(Stop::Ended),
        }
    }

    /// The cursor after the keyword in front.
    pub fn take_word(self, word: Keyword) -> Result<Cursor<'a>, Stop>
        ensures { MatchResult result
            (λ r. HasFront (Word word) self.entry.tokens.now r.tokens.now
            × (r.room ≡ self.entry.room))
            (Misses (Word word) self.entry.tokens.now) }
    {
        match self.tokens {
            [
                Token {
                    kind: Kind::Keyword(w),
                    ..
                },
                tokens @ ..,
            ] if *w == word => Ok(Cursor { tokens, ..self }),
            [token, ..] => Err(Stop::Expected(token.place)),
            [] => Err(Stop::Ended),
        }
    }

    /// The name in front, and the cursor after it.
    pub fn name(self, alloc: Global) -> Result<(Named, Cursor<'a>), Stop>
        ensures { MatchResult result
            (λ r. HasName self.entry.tokens.now r.0 r.1.tokens.now × (r.1.room ≡ self.entry.room))
            (MissesName self.entry.tokens.now) }
    {
        match self.tokens {
            [
                Token {
                    kind: Kind::Name(name),
                    line,
                    ..
                },
                tokens @ ..,
            ] => {
                let name = name.try_clone(alloc)?;
                Ok((Named { name, line: *line }, Cursor { tokens, ..self }))
            }
            [token, ..] => Err(Stop::Expected(token.place)),
            [] => Err(Stop::Ended),
        }
    }

    /// The number in front with its place, and the cursor after it.
    pub fn number(self) -> Result<(u64, u32, Cursor<'a>), Stop>
        ensures { MatchResult result
            (λ r. HasNumber self.entry.tokens.now r.0 r.1 r.2.tokens.now
            × (r.2.room ≡ self.entry.room))
            (MissesNumber self.entry.tokens.now) }
    {
        match self.tokens {
            [
                Token {
                    kind: Kind::Number(literal),
                    place,
                    ..
                },
                tokens @ ..,
            ] => Ok((literal.to_u64(), *place, Cursor { tokens, ..self })),
            [token, ..] => Err(Stop::Expected(token.place)),
            [] => Err(Stop::Ended),
        }
    }

    /// The number in front, and the cursor after it.
    pub fn literal(self) -> Result<(i64, Cursor<'a>), Stop>
        ensures { MatchResult result
            (λ r. HasLiteral self.entry.tokens.now r.0 r.1.tokens.now
            × (r.1.room ≡ self.entry.room))
            (MissesNumber self.entry.tokens.now) }
    {
        match self.tokens {
            [
                Token {
                    kind: Kind::Number(literal),
                    ..
                },
                tokens @ ..,
            ] => Ok((literal.to_i64(), Cursor { tokens, ..self })),
            [token, ..] => Err(Stop::Expected(token.place)),
            [] => Err(Stop::Ended),
        }
    }

    /// How a parameter is taken, by the keyword in front with its place, and the cursor after it.
    pub fn mode(self) -> Result<(Mode, u32, Cursor<'a>), Stop>
        ensures { MatchResult result
            (λ r. HasMode self.entry.tokens.now r.0 r.1 r.2.tokens.now
            × (r.2.room ≡ self.entry.room))
            (MissesMode self.entry.tokens.now) }
    {
        match self.tokens {
            [
                Token {
                    kind: Kind::Keyword(Keyword::Mut),
                    place,
                    ..
                },
                tokens @ ..,
            ] => Ok((Mode::Mut, *place, Cursor { tokens, ..self })),
            [
                Token {
                    kind: Kind::Keyword(Keyword::Ref),
                    place,
                    ..
                },
                tokens @ ..,
            ] => Ok((Mode::Ref, *place, Cursor { tokens, ..self })),
            [
                Token {
                    kind: Kind::Keyword(Keyword::Int),
                    place,
                    ..
                },
                tokens @ ..,
            ] => Ok((Mode::Int, *place, Cursor { tokens, ..self })),
            [token, ..] => Err(Stop::Expected(token.place)),
            [] => Err(Stop::Ended),
        }
    }

    /// The operator of the level in front with its place and its line, and the cursor after it.
    pub fn operator_in(self, level: Level) -> Option<(Operator, u32, u32, Cursor<'a>)>
        ensures { MatchOption result
            (NoOperator level self.entry.tokens.now)
            (λ r. HasOperator level self.entry.tokens.now r.0 r.1 r.2 r.3.tokens.now
            × (r.3.room ≡ self.entry.room)) }
    {
        let (token, tokens) = self.tokens.split_first()?;
        match &token.kind {
            Kind::Sign(sign) => {
                let found = operator(level, *sign)?;
                Some((found, token.place, token.line, Cursor { tokens, ..self }))
            }
            Kind::Name(_) | Kind::Number(_) | Kind::Keyword(_) => None,
        }
    }

    /// Whether no operator of the level is in front.
    fn is_free(self, level: Level) -> bool
        ensures { IsTrue result → NoOperator level self.entry.tokens.now }
    {
        match self.operator_in(level) {
            Some(_) => false,
            None => true,
        }
    }

    /// Whether no operator of the level is in front, nor of one that binds more.
    pub fn has_none(self, level: Level) -> bool
        ensures { IsTrue result → NoneWithin level self.entry.tokens.now }
    {
        if !self.is_free(Level::Product) {
            return false;
        }
        match level {
            Level::Product => true,
            Level::Sum => self.is_free(Level::Sum),
            Level::Comparison => {
                if !self.is_free(Level::Sum) {
                    return false;
                }
                self.is_free(Level::Comparison)
            }
            Level::Both => {
                if !self.is_free(Level::Sum) {
                    return false;
                }
                if !self.is_free(Level::Comparison) {
                    return false;
                }
                self.is_free(Level::Both)
            }
            Level::Either => {
                if !self.is_free(Level::Sum) {
                    return false;
                }
                if !self.is_free(Level::Comparison) {
                    return false;
                }
                if !self.is_free(Level::Both) {
                    return false;
                }
                self.is_free(Level::Either)
            }
        }
    }
}
