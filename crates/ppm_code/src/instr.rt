//! Instructions, each decoded to an act in one place.
ghost use Rattle.std.specs.Prelude.{◌≡◌, FitsSigned};
ghost use Rattle.std.specs.Int.{w64};
ghost use Rattle.ppm_words.specs.TwosComplement.{value_of};
ghost use Rattle.ppm_code.specs.Acts.{does, held};
ghost use Rattle.ppm_code.specs.Paths.{may};

use crate::act::{Act, End, Step};
use crate::arithmetic::{difference, product, quotient, remainder, sum};
use crate::class::{Class, May};
use crate::location::{FrameWord, Location};
use crate::region::{cut_left, cut_right, element};
use crate::register::Register;
use ppm_words::{Trap, of_word, to_word};

/// An instruction of a capsule. Registers hold words; `line` is where the source traps, from 1;
/// `target` is an instruction of the capsule, from 0.
#[derive(Clone, Copy, Debug, PartialEq, Eq)]
pub enum Instr {
    Const {
        to: Register,
        value: i64,
    },
    Move {
        to: Register,
        from: Register,
    },
    Add {
        to: Register,
        left: Register,
        right: Register,
        line: u32,
    },
    Sub {
        to: Register,
        left: Register,
        right: Register,
        line: u32,
    },
    Mul {
        to: Register,
        left: Register,
        right: Register,
        line: u32,
    },
    Div {
        to: Register,
        left: Register,
        right: Register,
        line: u32,
    },
    Rem {
        to: Register,
        left: Register,
        right: Register,
        line: u32,
    },
    Equal {
        to: Register,
        left: Register,
        right: Register,
    },
    NotEqual {
        to: Register,
        left: Register,
        right: Register,
    },
    Less {
        to: Register,
        left: Register,
        right: Register,
    },
    AtMost {
        to: Register,
        left: Register,
        right: Register,
    },
    Len {
        to: Register,
        region: Register,
    },
    CutLeft {
        to: Register,
        region: Register,
        at: Register,
        line: u32,
    },
    CutRight {
        to: Register,
        region: Register,
        at: Register,
        line: u32,
    },
    LoadSlot {
        to: Register,
        slot: u32,
    },
    StoreCur {
        slot: u32,
        from: Register,
    },
    Give {
        from: Register,
    },
    Get {
        to: Register,
        region: Register,
        index: Register,
        line: u32,
    },
    Put {
        region: Register,
        index: Register,
        from: Register,
        line: u32,
    },
    BranchZero {
        tested: Register,
        target: u32,
    },
    BranchNonZero {
        tested: Register,
        target: u32,
    },
    Room {
        words: u32,
    },
    StoreNew {
        offset: u32,
        from: Register,
    },
    Ends(End),
}

/// The word in a register.
#[inline(always)]
fn word_in(registers: &[u64; 64], register: Register) -> u64
    ensures { result ≡ held registers.now register }
{
    registers[usize::from(register.index)]
}

/// The signed number in a register.
#[inline(always)]
fn number_in(registers: &[u64; 64], register: Register) -> i64
    ensures value { result ≡ value_of (held registers.now register) }
    ensures in_range { FitsSigned w64 result }
{
    of_word(word_in(registers, register))
}

impl Instr {
    /// What the instruction does where the registers hold these words and there are so many array
    /// words.
    #[inline(always)]
    pub fn act(&self, registers: &[u64; 64], array_words: u64) -> Act
        ensures { result ≡ does array_words self.now registers.now }
    {
        match *self {
            Instr::Const { to, value } => Act::Sets(to, to_word(value)),
            Instr::Move { to, from } => Act::Sets(to, word_in(registers, from)),
            Instr::Add {
                to,
                left,
                right,
                line,
            } => sum(
                line,
                to,
                number_in(registers, left),
                number_in(registers, right),
            ),
            Instr::Sub {
                to,
                left,
                right,
                line,
            } => difference(
                line,
                to,
                number_in(registers, left),
                number_in(registers, right),
            ),
            Instr::Mul {
                to,
                left,
                right,
                line,
            } => product(
                line,
                to,
                number_in(registers, left),
                number_in(registers, right),
            ),
            Instr::Div {
                to,
                left,
                right,
                line,
            } => quotient(
                line,
                to,
                number_in(registers, left),
                number_in(registers, right),
            ),
            Instr::Rem {
                to,
                left,
                right,
                line,
            } => remainder(
                line,
                to,
                number_in(registers, left),
                number_in(registers, right),
            ),
            Instr::Equal { to, left, right } => {
                let equal = word_in(registers, left) == word_in(registers, right);
                Act::Sets(to, u64::from(equal))
            }
            Instr::NotEqual { to, left, right } => {
                let equal = word_in(registers, left) == word_in(registers, right);
                Act::Sets(to, u64::from(!equal))
            }
            Instr::Less { to, left, right } => {
                let less = number_in(registers, left) < number_in(registers, right);
                Act::Sets(to, u64::from(less))
            }
            Instr::AtMost { to, left, right } => {
                let at_most = number_in(registers, left) <= number_in(registers, right);
                Act::Sets(to, u64::from(at_most))
            }
            Instr::Len { to, region } => Act::Sets(to, word_in(registers, region) % (1 << 32)),
            Instr::CutLeft {
                to,
                region,
                at,
                line,
            } => cut_left(line, to, word_in(registers, region), word_in(registers, at)),
            Instr::CutRight {
                to,
                region,
                at,
                line,
            } => cut_right(line, to, word_in(registers, region), word_in(registers, at)),
            Instr::LoadSlot { to, slot } => {
                Act::Steps(Step::Loads(Location::Frame(FrameWord::Slot(slot)), to))
            }
            Instr::StoreCur { slot, from } => Act::Steps(Step::Stores(
                Location::Frame(FrameWord::Slot(slot)),
                word_in(registers, from),
            )),
            Instr::Give { from } => Act::Steps(Step::Stores(
                Location::Frame(FrameWord::Value),
                word_in(registers, from),
            )),
            Instr::Get {
                to,
                region,
                index,
                line,
            } => match element(
                word_in(registers, region),
                word_in(registers, index),
                array_words,
            ) {
                Some(array_word) => Act::Steps(Step::Loads(Location::Array(array_word), to)),
                None => Act::Ends(End::Trap {
                    trap: Trap::Index,
                    line,
                }),
            },
            Instr::Put {
                region,
                index,
                from,
                line,
            } => match element(
                word_in(registers, region),
                word_in(registers, index),
                array_words,
            ) {
                Some(array_word) => Act::Steps(Step::Stores(
                    Location::Array(array_word),
                    word_in(registers, from),
                )),
                None => Act::Ends(End::Trap {
                    trap: Trap::Index,
                    line,
                }),
            },
            Instr::BranchZero { tested, target } => {
                if word_in(registers, tested) == 0 {
                    Act::Jumps(target)
                } else {
                    Act::Passes
                }
            }
            Instr::BranchNonZero { tested, target } => {
                if word_in(registers, tested) == 0 {
                    Act::Passes
                } else {
                    Act::Jumps(target)
                }
            }
            Instr::Room { words } => Act::Steps(Step::Asks(words)),
            Instr::StoreNew { offset, from } => Act::Steps(Step::Stores(
                Location::New(offset),
                word_in(registers, from),
            )),
            Instr::Ends(end) => Act::Ends(end),
        }
    }

    /// What the instruction may do, whatever the registers hold.
    pub fn may(&self) -> May
        ensures { result ≡ may self.now }
    {
        match *self {
            Instr::Const { .. }
            | Instr::Move { .. }
            | Instr::Add { .. }
            | Instr::Sub { .. }
            | Instr::Mul { .. }
            | Instr::Div { .. }
            | Instr::Rem { .. }
            | Instr::Equal { .. }
            | Instr::NotEqual { .. }
            | Instr::Less { .. }
            | Instr::AtMost { .. }
            | Instr::Len { .. }
            | Instr::CutLeft { .. }
            | Instr::CutRight { .. } => May::Work,
            Instr::LoadSlot { slot, .. } => May::Read(Class::Slot(slot)),
            Instr::StoreCur { slot, .. } => May::Write(Class::Slot(slot)),
            Instr::Give { .. } => May::Write(Class::Value),
            Instr::Get { .. } => May::Read(Class::Array),
            Instr::Put { .. } => May::Write(Class::Array),
            Instr::BranchZero { target, .. } | Instr::BranchNonZero { target, .. } => {
                May::Branch(target)
            }
            Instr::Room { .. } => May::Read(Class::Room),
            Instr::StoreNew { offset, .. } => May::Write(Class::New(offset)),
            Instr::Ends(..) => May::Stop,
        }
    }
}
