//! The code that lines declare.
ghost use Rattle.std.specs.Prelude.{◌≡◌, IfOk};
ghost use Rattle.ppm_listing_reader.specs.Places.{root_in, arrays_in, procedures_in, instrs_in};
ghost use Rattle.ppm_listing_reader.specs.Places.{capsules_in, instr_or_end as whole_or_end};
ghost use Rattle.ppm_listing_reader.specs.Places.{code_in};

use crate::part::Part;
use ppm_code::{Capsule, CodeParts, End, Instr, Procedure};
use ppm_words::{Items, NoMemory};
use std::alloc::Global;

/// The root's procedure.
fn root(lines: &[Option<Part>]) -> u32
    ensures { result ≡ root_in lines.now }
{
    let mut left = lines;
    while let [line, rest @ ..] = left {
        if let Some(Part::Root { procedure, .. }) = line {
            return *procedure;
        }
        left = rest;
    }
    0
}

/// Its arrays.
fn arrays(alloc: Global, lines: &[Option<Part>]) -> Result<Vec<u32>, NoMemory>
    ensures { IfOk result (λ arrays. arrays.items ≡ arrays_in lines.now) }
{
    let mut left = lines;
    while let [line, rest @ ..] = left {
        if let Some(Part::Root { arrays, .. }) = line {
            return Ok(Vec::from_slice(alloc, arrays.as_slice())?);
        }
        left = rest;
    }
    Ok(Vec::new(alloc))
}

/// The procedures.
fn procedures(alloc: Global, lines: &[Option<Part>]) -> Result<Vec<Procedure>, NoMemory>
    ensures { IfOk result (λ procedures. procedures.items ≡ procedures_in lines.now) }
{
    let mut procedures = Vec::new(alloc);
    let mut left = lines;
    while let [line, rest @ ..] = left {
        if let Some(Part::Procedure { slots, entry, .. }) = line {
            procedures.push(Procedure {
                slots: *slots,
                entry: *entry,
            })?;
        }
        left = rest;
    }
    Ok(procedures)
}

/// The instruction, or an end where a line says no whole one.
fn instr_or_end(instr: Option<Instr>) -> Instr
    ensures { result ≡ whole_or_end instr }
{
    match instr {
        Some(instr) => instr,
        None => Instr::Ends(End::Finish),
    }
}

/// The instructions up to the next capsule.
fn instrs(alloc: Global, lines: &[Option<Part>]) -> Result<Vec<Instr>, NoMemory>
    ensures { IfOk result (λ instrs. instrs.items ≡ instrs_in lines.now) }
{
    let mut instrs = Vec::new(alloc);
    let mut left = lines;
    while let [line, rest @ ..] = left {
        match line {
            Some(Part::Capsule { .. }) => return Ok(instrs),
            Some(Part::Instr(instr)) => instrs.push(instr_or_end(*instr))?,
            None | Some(Part::Version) | Some(Part::Root { .. }) | Some(Part::Procedure { .. }) =>
                instrs.push(Instr::Ends(End::Finish))?,
        }
        left = rest;
    }
    Ok(instrs)
}

/// The capsules, each with the instructions after it.
fn capsules(alloc: Global, lines: &[Option<Part>]) -> Result<Vec<Capsule>, NoMemory>
    ensures { IfOk result (λ capsules. capsules.items ≡ capsules_in lines.now) }
{
    let mut capsules = Vec::new(alloc);
    let mut left = lines;
    while let [line, rest @ ..] = left {
        if let Some(Part::Capsule { procedure, .. }) = line {
            let instrs = instrs(alloc, rest)?;
            capsules.push(Capsule {
                procedure: *procedure,
                instrs: Items::from_vec(instrs),
            })?;
        }
        left = rest;
    }
    Ok(capsules)
}

/// The code that lines declare.
pub(crate) fn declared(alloc: Global, lines: &[Option<Part>]) -> Result<CodeParts, NoMemory>
    ensures { IfOk result (λ code. code ≡ code_in lines.now) }
{
    let arrays = arrays(alloc, lines)?;
    let procedures = procedures(alloc, lines)?;
    let capsules = capsules(alloc, lines)?;
    Ok(CodeParts {
        root: root(lines),
        arrays: Items::from_vec(arrays),
        procedures: Items::from_vec(procedures),
        capsules: Items::from_vec(capsules),
    })
}
