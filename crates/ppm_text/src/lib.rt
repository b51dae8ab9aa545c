//! The tokens of a text: from its bytes to names, numbers, keywords and signs, each with its place
//! and line.
//! Model: a text is lexed into tokens, blanks and comments (`specs/Lexing.antt`), each token the
//! longest in front (`specs/Spelling.antt`); `Tokens` is the list with the text's length
//! (`specs/Tokens.antt`).
//! Contract: `tokens` answers the one list that a text is lexed into, or its one fault
//! (`specs/Correct.antt`).
//! Stands on `ppm_words`; `ppm_parser` finds the tree of the tokens.
//! The spelling of tokens is this project's; that the longest comes first is the custom of lexers.
#![tactic(auto)]

mod byte_class;
mod laws;
mod literal;
mod scan;
mod spelling;
mod text_error;
mod token;
mod token_list;

pub use byte_class::is_letter_byte;
pub use laws::have_one_reading;
pub use literal::Literal;
pub use scan::{TEXT_LIMIT, tokens};
pub use spelling::keyword;
pub use text_error::TextError;
pub use token::{Keyword, Kind, Sign, Token};
pub use token_list::Tokens;
