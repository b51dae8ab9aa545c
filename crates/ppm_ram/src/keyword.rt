//! The keywords of instructions with operands.
ghost use Rattle.std.specs.Prelude.{◌≡◌};
ghost use Rattle.ppm_ram.specs.Lines.{keyword_of as keyword};

use crate::instruction::Operation;
use ppm_pieces::same_bytes;

/// The keyword of an instruction with operands.
#[derive(Clone, Copy, Debug, PartialEq, Eq)]
pub enum Keyword {
    Set,
    Computes(Operation),
    Load,
    Store,
    JumpIfZero,
    Jump,
}

/// The keyword that a word is.
pub(crate) fn keyword_of(word: &[u8]) -> Option<Keyword>
    ensures { result ≡ keyword word.now }
{
    if same_bytes(word, b"set") {
        return Some(Keyword::Set);
    }
    if same_bytes(word, b"add") {
        return Some(Keyword::Computes(Operation::Add));
    }
    if same_bytes(word, b"sub") {
        return Some(Keyword::Computes(Operation::Sub));
    }
    if same_bytes(word, b"mul") {
        return Some(Keyword::Computes(Operation::Mul));
    }
    if same_bytes(word, b"div") {
        return Some(Keyword::Computes(Operation::Div));
    }
    if same_bytes(word, b"rem") {
        return Some(Keyword::Computes(Operation::Rem));
    }
    if same_bytes(word, b"lt") {
        return Some(Keyword::Computes(Operation::Less));
    }
    if same_bytes(word, b"load") {
        return Some(Keyword::Load);
    }
    if same_bytes(word, b"store") {
        return Some(Keyword::Store);
    }
    if same_bytes(word, b"jz") {
        return Some(Keyword::JumpIfZero);
    }
    if same_bytes(word, b"jump") {
        return Some(Keyword::Jump);
    }
    None
}
