//! The tokens of a text, with its length.
ghost use Rattle.std.specs.Prelude.{◌≡◌, ◌≤◌};
ghost use Rattle.std.specs.List.{All};
ghost use Rattle.ppm_text.specs.Limits.{text_limit};
ghost use Rattle.ppm_text.specs.Tokens.{StandsIn, AreTokens, text_tokens};

use crate::token::Token;
use std::marker::Model;

/// The tokens of a text, in their order, with how many bytes the text has, 1,048,576 at most. Each
/// token's place is below that number, its line from 1 to one more than its place; its name has 1
/// to 32 bytes, its number is up to 2^63 - 1.
#[derive(Drop)]
pub struct Tokens {
    list: Vec<Token>,
    text_len: u32,
}

impl Model for Tokens {
    ghost use Rattle.ppm_text.specs.Tokens.{TextTokens, AreTokens, text_tokens};

    ghost Value = { TextTokens };

    ghost view = { λ s. text_tokens s.list.items s.text_len };

    ghost invariant = { λ s. AreTokens (text_tokens s.list.items s.text_len) };
}

impl Tokens {
    /// The tokens of a text of so many bytes.
    pub(crate) fn from_parts(list: Vec<Token>, text_len: u32) -> Self
        requires { AreTokens (text_tokens list.items text_len) }
        ensures { result ≡ text_tokens list.items text_len }
    {
        Tokens { list, text_len }
    }

    /// The tokens, in the order of the text.
    pub fn as_slice(&self) -> &[Token]
        ensures value { result.now ≡ self.now.tokens }
        ensures stand { All (StandsIn self.now.text_len) self.now.tokens }
    {
        &self.list
    }

    /// How many bytes the text has, 1,048,576 at most.
    pub fn text_len(&self) -> u32
        ensures value { result ≡ self.now.text_len }
        ensures limit { result ≤ text_limit }
    {
        self.text_len
    }
}
