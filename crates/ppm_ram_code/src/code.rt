//! The code of a RAM, and its input.
ghost use Rattle.std.specs.Prelude.{◌≡◌, ◌∷◌, [], ◌<◌, ◌+◌, ◌^◌, true, IfOk};
ghost use Rattle.ppm_code.specs.declared.act.End.TheVariants.{Finish};
ghost use Rattle.ppm_code.specs.declared.instr.Instr.TheVariants.{Ends, Get, LoadSlot};
ghost use Rattle.ppm_ram.specs.declared.instruction.Instruction.TheVariants.{JumpIfZero, Store};
ghost use Rattle.ppm_ram.specs.Limits.{instruction_limit, line_of};
ghost use Rattle.ppm_ram.specs.Meaning.{as_array};
ghost use Rattle.ppm_ram.specs.Program.{has_target, memory_of};
ghost use Rattle.ppm_ram_code.specs.Code.{capsule_for, capsules_from, code_of};
ghost use Rattle.ppm_ram_code.specs.Code.{instrs_for, loads, onward, operation_instr, own};
ghost use Rattle.ppm_ram_code.specs.Code.{other as other_bank, region, stores};
ghost use Rattle.ppm_ram_code.specs.Correct.{input_of};

use crate::bank::Bank;
use crate::instrs::{
    push, push_get, push_load, push_onward, push_put, push_read, push_reads, push_rest, push_test,
    register,
};
use ppm_code::{Capsule, Code, CodeParts, End, Instr, Procedure, Register};
use ppm_ram::{Instruction, Operation, Ram, Register as RamRegister};
use ppm_words::{Input, Items, Name, NamedArray, NoMemory};
use std::alloc::Global;

/// The register of capsules for one of the RAM.
fn own_register(register_of: RamRegister) -> Register
    ensures { result ≡ own register_of }
{
    register(register_of.index)
}

/// The instruction of capsules that is an operation; it traps in a line.
fn operation_in(
    operation: Operation,
    to: Register,
    left: Register,
    right: Register,
    line: u32,
) -> Instr
    ensures { result ≡ operation_instr operation to left right line }
{
    match operation {
        Operation::Add => Instr::Add {
            to,
            left,
            right,
            line,
        },
        Operation::Sub => Instr::Sub {
            to,
            left,
            right,
            line,
        },
        Operation::Mul => Instr::Mul {
            to,
            left,
            right,
            line,
        },
        Operation::Div => Instr::Div {
            to,
            left,
            right,
            line,
        },
        Operation::Rem => Instr::Rem {
            to,
            left,
            right,
            line,
        },
        Operation::Less => Instr::Less { to, left, right },
    }
}

/// The capsule of `set` or of an operation, by what it does with the registers.
fn register_capsule(
    alloc: Global,
    number: u32,
    bank: Bank,
    instr: Instr,
) -> Result<Vec<Instr>, NoMemory>
    requires { number < 2 ^ 29 }
    ensures { IfOk result (λ body. body.items
        ≡ loads bank (instr ∷ stores (number + 1) (other_bank bank))) }
{
    let mut body = Vec::new(alloc);
    push_reads(&mut body, bank)?;
    push(&mut body, instr)?;
    push_rest(&mut body, number + 1, bank.other())?;
    Ok(body)
}

/// The capsule of `load`.
fn load_capsule(
    alloc: Global,
    number: u32,
    bank: Bank,
    to: Register,
    at: Register,
) -> Result<Vec<Instr>, NoMemory>
    requires { number < 2 ^ 29 }
    ensures { IfOk result (λ body. body.items
        ≡ loads bank (LoadSlot region 0 ∷ Get to region at (line_of number)
        ∷ stores (number + 1) (other_bank bank))) }
{
    let mut body = Vec::new(alloc);
    push_reads(&mut body, bank)?;
    push_load(&mut body, 8, 0)?;
    push_get(&mut body, to, at, number + 4)?;
    push_rest(&mut body, number + 1, bank.other())?;
    Ok(body)
}

/// The capsule of `store`.
fn store_capsule(
    alloc: Global,
    number: u32,
    bank: Bank,
    at: RamRegister,
    from: RamRegister,
) -> Result<Vec<Instr>, NoMemory>
    requires { number < 2 ^ 29 }
    ensures { IfOk result (λ body. body.items ≡ instrs_for number bank (Store at from)) }
{
    let mut body = Vec::new(alloc);
    push_load(&mut body, 8, 0)?;
    push_read(&mut body, 0, bank, at.index)?;
    push_read(&mut body, 1, bank, from.index)?;
    push_put(&mut body, number + 4)?;
    push_onward(&mut body, number + 1, bank)?;
    Ok(body)
}

/// The capsule of `jz`.
fn test_capsule(
    alloc: Global,
    number: u32,
    bank: Bank,
    tested: RamRegister,
    target: u32,
) -> Result<Vec<Instr>, NoMemory>
    requires number { number < 2 ^ 29 }
    requires target { target < 2 ^ 29 }
    ensures { IfOk result (λ body. body.items
        ≡ instrs_for number bank (JumpIfZero tested target)) }
{
    let mut body = Vec::new(alloc);
    push_read(&mut body, 0, bank, tested.index)?;
    push_test(&mut body)?;
    push_onward(&mut body, target, bank)?;
    push_onward(&mut body, number + 1, bank)?;
    Ok(body)
}

/// The capsule of `jump`.
fn jump_capsule(alloc: Global, bank: Bank, target: u32) -> Result<Vec<Instr>, NoMemory>
    requires { target < 2 ^ 29 }
    ensures { IfOk result (λ body. body.items ≡ onward target bank) }
{
    let mut body = Vec::new(alloc);
    push_onward(&mut body, target, bank)?;
    Ok(body)
}

/// The capsule of `halt`.
fn halt_capsule(alloc: Global) -> Result<Vec<Instr>, NoMemory>
    ensures { IfOk result (λ body. body.items ≡ Ends Finish ∷ []) }
{
    let mut body = Vec::new(alloc);
    push(&mut body, Instr::Ends(End::Finish))?;
    Ok(body)
}

/// The instructions of the capsule of an instruction, by its number, that reads a copy.
fn instrs_of(
    alloc: Global,
    number: u32,
    bank: Bank,
    instruction: Instruction,
) -> Result<Vec<Instr>, NoMemory>
    requires number { number < 2 ^ 29 }
    requires target { has_target instruction_limit instruction ≡ true }
    ensures { IfOk result (λ body. body.items ≡ instrs_for number bank instruction) }
{
    match instruction {
        Instruction::Set { to, value } => {
            let to = own_register(to);
            register_capsule(alloc, number, bank, Instr::Const { to, value })
        }
        Instruction::Compute {
            operation,
            to,
            left,
            right,
        } => {
            register_capsule(
                alloc,
                number,
                bank,
                operation_in(
                    operation,
                    own_register(to),
                    own_register(left),
                    own_register(right),
                    number + 4,
                ),
            )
        }
        Instruction::Load { to, at } => {
            load_capsule(alloc, number, bank, own_register(to), own_register(at))
        }
        Instruction::Store { at, from } => store_capsule(alloc, number, bank, at, from),
        Instruction::JumpIfZero { tested, target } => {
            test_capsule(alloc, number, bank, tested, target)
        }
        Instruction::Jump { target } => jump_capsule(alloc, bank, target),
        Instruction::Halt => halt_capsule(alloc),
    }
}

/// The capsule of an instruction, by its number, that reads a copy.
fn capsule_of(
    alloc: Global,
    number: u32,
    bank: Bank,
    instruction: Instruction,
) -> Result<Capsule, NoMemory>
    requires number { number < 2 ^ 29 }
    requires target { has_target instruction_limit instruction ≡ true }
    ensures { IfOk result (λ c. c ≡ capsule_for number bank instruction) }
{
    let instrs = instrs_of(alloc, number, bank, instruction)?;
    Ok(Capsule {
        procedure: 0,
        instrs: Items::from_vec(instrs),
    })
}

/// The capsules of all instructions.
fn capsules_of(alloc: Global, ram: &Ram) -> Result<Vec<Capsule>, NoMemory>
    ensures { IfOk result (λ capsules. capsules.items ≡ capsules_from 0 ram.now.instructions) }
{
    let mut capsules = Vec::new(alloc);
    let mut number: u32 = 0;
    while let Some(instruction) = ram.instruction(number) {
        let first = capsule_of(alloc, number, Bank::First, instruction)?;
        capsules.push(first)?;
        let second = capsule_of(alloc, number, Bank::Second, instruction)?;
        capsules.push(second)?;
        number += 1;
    }
    Ok(capsules)
}

/// The parts of the code of a RAM.
fn code_parts(alloc: Global, ram: &Ram) -> Result<CodeParts, NoMemory>
    ensures { IfOk result (λ parts. parts ≡ code_of ram.now) }
{
    let capsules = capsules_of(alloc, ram)?;
    let mut arrays = Vec::new(alloc);
    arrays.push(0)?;
    let mut procedures = Vec::new(alloc);
    procedures.push(Procedure {
        slots: 17,
        entry: 0,
    })?;
    Ok(CodeParts {
        root: 0,
        arrays: Items::from_vec(arrays),
        procedures: Items::from_vec(procedures),
        capsules: Items::from_vec(capsules),
    })
}

/// The code of a RAM: one procedure with 17 slots, and two capsules for each instruction. `Err`
/// only where memory is refused.
pub fn ram_code(alloc: Global, ram: &Ram) -> Result<Code, NoMemory>
    ensures { IfOk result (λ code. code ≡ code_of ram.now) }
{
    // What always holds of a RAM makes its code keep the rules of a code.
    let _ = ram.parts();
    let code = code_parts(alloc, ram)?;
    Ok(Code::from_parts(code))
}

/// The memory with which a RAM begins, as an array of the name `m`.
fn memory_array(alloc: Global, ram: &Ram) -> Result<NamedArray, NoMemory>
    ensures { IfOk result (λ array. array ≡ as_array (memory_of ram.now)) }
{
    let memory = ram.memory(alloc)?;
    let name = Name::from_bytes(Vec::from_slice(alloc, b"m")?);
    Ok(NamedArray {
        name,
        values: Items::from_vec(memory),
    })
}

/// The input of a RAM's code: the memory with which the RAM begins, as one array of the name `m`.
/// `Err` only where memory is refused.
pub fn ram_input(alloc: Global, ram: &Ram) -> Result<Input, NoMemory>
    ensures { IfOk result (λ input. input ≡ input_of (memory_of ram.now)) }
{
    // What always holds of a RAM makes its memory an input.
    let _ = ram.parts();
    let array = memory_array(alloc, ram)?;
    let mut arrays = Vec::new(alloc);
    arrays.push(array)?;
    Ok(Input::from_vec(arrays))
}
