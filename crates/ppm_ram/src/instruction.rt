//! The instructions of a RAM.
ghost use Rattle.std.specs.Prelude.{◌≡◌};
ghost use Rattle.ppm_ram.specs.Program.{has_target as target_there, is_final as final_one};

use crate::register::Register;

/// An operation on two registers. `Less` gives 1 where the left number is less, and else 0.
#[derive(Clone, Copy, Debug, PartialEq, Eq)]
pub enum Operation {
    Add,
    Sub,
    Mul,
    Div,
    Rem,
    Less,
}

/// An instruction. `target` is an instruction of the RAM, from 0; `at` has the index of a word of
/// the memory, from 0.
#[derive(Clone, Copy, Debug, PartialEq, Eq)]
pub enum Instruction {
    /// A register takes a number.
    Set {
        to: Register,
        value: i64,
    },
    /// A register takes what an operation gives.
    Compute {
        operation: Operation,
        to: Register,
        left: Register,
        right: Register,
    },
    /// A register takes a word of the memory.
    Load {
        to: Register,
        at: Register,
    },
    /// A word of the memory takes a number.
    Store {
        at: Register,
        from: Register,
    },
    /// Another instruction follows, if the register has 0.
    JumpIfZero {
        tested: Register,
        target: u32,
    },
    /// Another instruction follows.
    Jump {
        target: u32,
    },
    /// The RAM ends.
    Halt,
}

impl Instruction {
    /// Whether it goes to one of so many instructions, if it jumps at all.
    pub(crate) fn has_target(self, count: u32) -> bool
        ensures { result ≡ target_there count self }
    {
        match self {
            Instruction::JumpIfZero { target, .. } => target < count,
            Instruction::Jump { target } => target < count,
            Instruction::Set { .. } => true,
            Instruction::Compute { .. } => true,
            Instruction::Load { .. } => true,
            Instruction::Store { .. } => true,
            Instruction::Halt => true,
        }
    }

    /// Whether it never goes on to the next instruction.
    pub(crate) fn is_final(self) -> bool
        ensures { result ≡ final_one self }
    {
        match self {
            Instruction::Jump { .. } => true,
            Instruction::Halt => true,
            Instruction::Set { .. } => false,
            Instruction::Compute { .. } => false,
            Instruction::Load { .. } => false,
            Instruction::Store { .. } => false,
            Instruction::JumpIfZero { .. } => false,
        }
    }
}
