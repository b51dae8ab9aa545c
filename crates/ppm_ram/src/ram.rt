//! RAMs, and what always holds of them.
ghost use Rattle.std.specs.Prelude.{◌≡◌, ◌<◌, slice_get, true, IfOk, IfSome};
ghost use Rattle.ppm_ram.specs.Limits.{instruction_limit};
ghost use Rattle.ppm_ram.specs.Program.{IsRam, has_target, memory_of};

use crate::instruction::Instruction;
use ppm_words::{Items, NoMemory};
use std::alloc::Global;
use std::marker::Model;

/// The parts of a RAM: how many words its memory has, the first values of these, and the
/// instructions.
#[derive(Debug, Drop)]
pub struct RamParts {
    pub memory: u32,
    pub values: Items<i64>,
    pub instructions: Items<Instruction>,
}

/// A RAM: 4,194,304 words of memory at most, no more values than that, and 1 to 30,000
/// instructions, none of which leads out of them.
#[derive(Debug, Drop)]
pub struct Ram {
    parts: RamParts,
}

impl Model for Ram {
    ghost use Rattle.ppm_ram.specs.declared.ram.RamParts.{RamParts};
    ghost use Rattle.ppm_ram.specs.Program.{IsRam};

    ghost Value = { RamParts };

    ghost view = { λ r. r.parts };

    ghost invariant = { λ r. IsRam r.parts };
}

/// The instruction at a place, if there is one.
fn instruction_at(instructions: &[Instruction], number: u32) -> Option<Instruction>
    ensures { result ≡ slice_get instructions.now number }
{
    match instructions.get(number as usize) {
        Some(instruction) => Some(*instruction),
        None => None,
    }
}

impl Ram {
    /// The RAM with these parts.
    pub fn from_parts(parts: RamParts) -> Self
        requires { IsRam parts }
        ensures { result ≡ parts }
    {
        Ram { parts }
    }

    /// Its parts.
    pub fn parts(&self) -> &RamParts
        ensures value { result.now ≡ self.now }
        ensures ram { IsRam self.now }
    {
        &self.parts
    }

    /// The instruction with a number, if there is one. It has a number below 30,000, and goes to one
    /// below 30,000 if it jumps.
    pub fn instruction(&self, number: u32) -> Option<Instruction>
        ensures value { result ≡ slice_get self.now.instructions number }
        ensures few { IfSome result (λ i. number < instruction_limit) }
        ensures target { IfSome result (λ i. has_target instruction_limit i ≡ true) }
    {
        instruction_at(self.parts.instructions.as_slice(), number)
    }

    /// The memory with which it begins: its values, and 0 after them.
    pub fn memory(&self, alloc: Global) -> Result<Vec<i64>, NoMemory>
        ensures { IfOk result (λ memory. memory.items ≡ memory_of self.now) }
    {
        let mut memory = Vec::from_slice(alloc, self.parts.values.as_slice())?;
        memory.resize(self.parts.memory as usize, 0)?;
        Ok(memory)
    }
}
