//! Instructions of capsules, appended one after another.
ghost use Rattle.std.specs.Prelude.{◌≡◌, ◌∷◌, ◌<◌, ◌^◌, OnOk};
ghost use Rattle.ppm_code.specs.declared.act.End.TheVariants as ends;
ghost use Rattle.ppm_code.specs.declared.instr.Instr.TheVariants as instr;
ghost use Rattle.ppm_ram_code.specs.Code.{capsule_at, loads, region as region_register};
ghost use Rattle.ppm_ram_code.specs.Code.{register as register_of, slot_of, stored_in};
ghost use Rattle.ppm_ram_code.specs.Growth.{Grows};

use crate::bank::Bank;
use ppm_code::{End, Instr, Register};
use ppm_words::NoMemory;

/// The register of capsules with a number, or the last one.
pub(crate) fn register(number: u8) -> Register
    ensures { result ≡ register_of number }
{
    if number < 64 {
        Register { index: number }
    } else {
        Register { index: 63 }
    }
}

/// Appends an instruction.
pub(crate) fn push(body: &mut Vec<Instr>, instr: Instr) -> Result<(), NoMemory>
    ensures { OnOk result (Grows (λ rest. instr ∷ rest) body.old.items body.new.items) }
{
    body.push(instr)?;
    Ok(())
}

/// Appends a load of a slot.
pub(crate) fn push_load(body: &mut Vec<Instr>, to_number: u8, slot: u32) -> Result<(), NoMemory>
    ensures { OnOk result (Grows (λ rest. instr.LoadSlot (register_of to_number) slot
        ∷ rest) body.old.items body.new.items) }
{
    let to = register(to_number);
    push(body, Instr::LoadSlot { to, slot })
}

/// Appends a store into a slot.
fn push_store(body: &mut Vec<Instr>, slot: u32, from_number: u8) -> Result<(), NoMemory>
    ensures { OnOk result (Grows (λ rest. instr.StoreCur slot (register_of from_number)
        ∷ rest) body.old.items body.new.items) }
{
    let from = register(from_number);
    push(body, Instr::StoreCur { slot, from })
}

/// Appends a load of a word of the memory, whose region is in its register.
pub(crate) fn push_get(
    body: &mut Vec<Instr>,
    to: Register,
    index: Register,
    line: u32,
) -> Result<(), NoMemory>
    ensures { OnOk result (Grows (λ rest. instr.Get to region_register index line
        ∷ rest) body.old.items body.new.items) }
{
    let region = register(8);
    push(
        body,
        Instr::Get {
            to,
            region,
            index,
            line,
        },
    )
}

/// Appends a store of register 1 into the word of the memory that register 0 names.
pub(crate) fn push_put(body: &mut Vec<Instr>, line: u32) -> Result<(), NoMemory>
    ensures { OnOk result (Grows (λ rest. instr.Put region_register (register_of 0) (register_of 1)
        line ∷ rest) body.old.items body.new.items) }
{
    let region = register(8);
    let index = register(0);
    let from = register(1);
    push(
        body,
        Instr::Put {
            region,
            index,
            from,
            line,
        },
    )
}

/// Appends a branch to the fourth instruction, if register 0 is not 0.
pub(crate) fn push_test(body: &mut Vec<Instr>) -> Result<(), NoMemory>
    ensures { OnOk result (Grows (λ rest. instr.BranchNonZero (register_of 0) 3
        ∷ rest) body.old.items body.new.items) }
{
    let tested = register(0);
    push(body, Instr::BranchNonZero { tested, target: 3 })
}

/// Appends an end with which the frame goes on.
fn push_next(body: &mut Vec<Instr>, capsule: u32) -> Result<(), NoMemory>
    ensures { OnOk result (Grows (λ rest. instr.Ends (ends.Next capsule)
        ∷ rest) body.old.items body.new.items) }
{
    push(body, Instr::Ends(End::Next { capsule }))
}

/// Appends a load of a register of the RAM.
pub(crate) fn push_read(
    body: &mut Vec<Instr>,
    to_number: u8,
    bank: Bank,
    from: u8,
) -> Result<(), NoMemory>
    requires { from < 8 }
    ensures { OnOk result (Grows (λ rest. instr.LoadSlot (register_of to_number) (slot_of bank from)
        ∷ rest) body.old.items body.new.items) }
{
    push_load(body, to_number, bank.slot_of(from))?;
    Ok(())
}

/// Appends a store of a register of the RAM.
fn push_write(body: &mut Vec<Instr>, bank: Bank, number: u8) -> Result<(), NoMemory>
    requires { number < 8 }
    ensures { OnOk result (Grows (λ rest. instr.StoreCur (slot_of bank number) (register_of number)
        ∷ rest) body.old.items body.new.items) }
{
    push_store(body, bank.slot_of(number), number)?;
    Ok(())
}

/// Appends loads of all registers of the RAM.
pub(crate) fn push_reads(body: &mut Vec<Instr>, bank: Bank) -> Result<(), NoMemory>
    ensures { OnOk result (Grows (loads bank) body.old.items body.new.items) }
{
    push_read(body, 0, bank, 0)?;
    push_read(body, 1, bank, 1)?;
    push_read(body, 2, bank, 2)?;
    push_read(body, 3, bank, 3)?;
    push_read(body, 4, bank, 4)?;
    push_read(body, 5, bank, 5)?;
    push_read(body, 6, bank, 6)?;
    push_read(body, 7, bank, 7)?;
    Ok(())
}

/// Appends stores of all registers of the RAM.
fn push_writes(body: &mut Vec<Instr>, bank: Bank) -> Result<(), NoMemory>
    ensures { OnOk result (Grows (stored_in bank) body.old.items body.new.items) }
{
    push_write(body, bank, 0)?;
    push_write(body, bank, 1)?;
    push_write(body, bank, 2)?;
    push_write(body, bank, 3)?;
    push_write(body, bank, 4)?;
    push_write(body, bank, 5)?;
    push_write(body, bank, 6)?;
    push_write(body, bank, 7)?;
    Ok(())
}

/// Appends the end with which the frame goes on at an instruction of the RAM, reading a copy.
pub(crate) fn push_onward(body: &mut Vec<Instr>, number: u32, bank: Bank) -> Result<(), NoMemory>
    requires { number < 2 ^ 30 }
    ensures { OnOk result (Grows (λ rest. instr.Ends (ends.Next (capsule_at number bank))
        ∷ rest) body.old.items body.new.items) }
{
    push_next(body, bank.capsule_at(number))?;
    Ok(())
}

/// Appends stores of all registers into a copy, and goes on at an instruction with it.
pub(crate) fn push_rest(body: &mut Vec<Instr>, number: u32, bank: Bank) -> Result<(), NoMemory>
    requires { number < 2 ^ 30 }
    ensures { OnOk result (Grows (λ rest. stored_in bank
        (instr.Ends (ends.Next (capsule_at number bank)) ∷ rest)) body.old.items body.new.items) }
{
    push_writes(body, bank)?;
    push_onward(body, number, bank)?;
    Ok(())
}
