//! Runs a RAM.
ghost use Rattle.std.specs.Prelude.{◌≡◌, ◌<◌, IfOk, IfSome, get_or, length, pos};
ghost use Rattle.ppm_ram.specs.Limits.{instruction_limit};
ghost use Rattle.ppm_ram.specs.Meaning.{applied_by, does, index_of, IsRunOf, said_of, Halted};
ghost use Rattle.ppm_ram.specs.Moves.{shown, state};

use crate::instruction::{Instruction, Operation};
use crate::ram::Ram;
use crate::register::Register;
use ppm_tree::{Operator, apply};
use ppm_words::{Items, Name, NamedArray, NoMemory, Outcome, Trap};
use std::alloc::Global;

/// What a step leads to.
#[derive(Clone, Copy, Debug, PartialEq, Eq)]
pub enum Next {
    /// To an instruction.
    To(u32),
    /// To the end.
    Halted,
    /// To a trap.
    Trapped(Trap),
}

/// The value of an operation, or its trap.
fn compute(operation: Operation, left: i64, right: i64) -> Result<i64, Trap>
    ensures { result ≡ applied_by operation left right }
{
    match operation {
        Operation::Add => apply(Operator::Add, left, right),
        Operation::Sub => apply(Operator::Sub, left, right),
        Operation::Mul => apply(Operator::Mul, left, right),
        Operation::Div => apply(Operator::Div, left, right),
        Operation::Rem => apply(Operator::Rem, left, right),
        Operation::Less => apply(Operator::Lt, left, right),
    }
}

/// The word of the memory that a number names, if there is one.
fn index_in(memory: &[i64], number: i64) -> Option<usize>
    ensures value { result ≡ index_of memory.now number }
    ensures within { IfSome result (λ n. n < length memory.now) }
{
    if number >= 0 && (number as usize) < memory.len() {
        Some(number as usize)
    } else {
        None
    }
}

/// The number in a register.
fn held(registers: &[i64; 8], register: Register) -> i64
    ensures { result ≡ get_or registers.now register.index (pos 0) }
{
    registers[usize::from(register.index)]
}

/// Makes the step of an instruction.
fn advance(
    at: u32,
    instruction: Instruction,
    registers: &mut [i64; 8],
    memory: &mut Vec<i64>,
) -> Next
    requires { at < instruction_limit }
    ensures { shown at registers.new memory.new.items result
        ≡ does (state at registers.old memory.old.items) instruction }
{
    match instruction {
        Instruction::Set { to, value } => {
            registers[usize::from(to.index)] = value;
            Next::To(at + 1)
        }
        Instruction::Compute {
            operation,
            to,
            left,
            right,
        } => match compute(operation, held(registers, left), held(registers, right)) {
            Ok(value) => {
                registers[usize::from(to.index)] = value;
                Next::To(at + 1)
            }
            Err(trap) => Next::Trapped(trap),
        },
        Instruction::Load { to, at: place } => match index_in(memory, held(registers, place)) {
            Some(index) => {
                registers[usize::from(to.index)] = memory[index];
                Next::To(at + 1)
            }
            None => Next::Trapped(Trap::Index),
        },
        Instruction::Store { at: place, from } => match index_in(memory, held(registers, place)) {
            Some(index) => {
                memory[index] = held(registers, from);
                Next::To(at + 1)
            }
            None => Next::Trapped(Trap::Index),
        },
        Instruction::JumpIfZero { tested, target } => {
            if held(registers, tested) == 0 {
                Next::To(target)
            } else {
                Next::To(at + 1)
            }
        }
        Instruction::Jump { target } => Next::To(target),
        Instruction::Halt => Next::Halted,
    }
}

/// The outcome of a RAM that halted with a memory: an array of the name `m`.
fn halted(alloc: Global, memory: Vec<i64>) -> Result<Outcome, NoMemory>
    ensures { IfOk result (λ o. o ≡ said_of (Halted memory.items)) }
{
    let name = Name::from_bytes(Vec::from_slice(alloc, b"m")?);
    let mut arrays = Vec::new(alloc);
    arrays.push(NamedArray {
        name,
        values: Items::from_vec(memory),
    })?;
    Ok(Outcome::Ended(Items::from_vec(arrays)))
}

/// Runs a RAM from its own memory, for so many steps at most. `NotWithin` exactly where it would
/// take more.
pub fn ram_run(alloc: Global, ram: &Ram, steps: u64) -> Result<Outcome, NoMemory>
    ensures { IfOk result (IsRunOf ram.now steps) }
{
    let mut memory = ram.memory(alloc)?;
    let mut registers: [i64; 8] = [0; 8];
    let mut at: u32 = 0;
    for _ in 0..steps {
        let Some(instruction) = ram.instruction(at) else {
            return halted(alloc, memory);
        };
        match advance(at, instruction, &mut registers, &mut memory) {
            Next::To(next) => at = next,
            Next::Halted => return halted(alloc, memory),
            Next::Trapped(trap) => return Ok(Outcome::Trapped(trap, at + 4)),
        }
    }
    Ok(Outcome::NotWithin)
}
