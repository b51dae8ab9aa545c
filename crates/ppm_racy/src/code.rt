//! Codes whose capsules may race.
ghost use Rattle.std.specs.Prelude.{◌≡◌, slice_get, map, MatchOption, Some, None, IfOk};
ghost use Rattle.ppm_racy.specs.Acts.{plain_of};
ghost use Rattle.ppm_racy.specs.Code.{IsRacyCode, plain_capsule as capsule_with_puts};
ghost use Rattle.ppm_racy.specs.Code.{plain_code as code_with_puts};

use crate::instr::RacyInstr;
use ppm_code::{Capsule, Code, CodeParts, Instr, Procedure};
use ppm_words::{Items, NoMemory};
use std::alloc::Global;
use std::marker::Model;

/// A capsule of a procedure: its instructions, 160 at most.
#[derive(Debug, Drop)]
pub struct RacyCapsule {
    pub procedure: u32,
    pub instrs: Items<RacyInstr>,
}

/// The parts of a code, as those of `ppm_code`. All numbers count from 0.
#[derive(Debug, Drop)]
pub struct RacyParts {
    pub root: u32,
    pub arrays: Items<u32>,
    pub procedures: Items<Procedure>,
    pub capsules: Items<RacyCapsule>,
}

/// A code that keeps all rules of a listing, with a put in place of each compare-and-modify.
#[derive(Debug, Drop)]
pub struct RacyCode {
    parts: RacyParts,
}

impl Model for RacyCode {
    ghost use Rattle.ppm_racy.specs.declared.code.RacyParts.{RacyParts};
    ghost use Rattle.ppm_racy.specs.Code.{IsRacyCode};

    ghost Value = { RacyParts };

    ghost view = { λ c. c.parts };

    ghost invariant = { λ c. IsRacyCode c.parts };
}

impl RacyCode {
    /// The code with these parts.
    pub fn from_parts(parts: RacyParts) -> Self
        requires { IsRacyCode parts }
        ensures { result ≡ parts }
    {
        RacyCode { parts }
    }

    /// Its parts.
    pub fn parts(&self) -> &RacyParts
        ensures value { result.now ≡ self.now }
        ensures code { IsRacyCode self.now }
    {
        &self.parts
    }

    /// The capsule with a number; `None` exactly where there is none.
    pub fn capsule(&self, number: u32) -> Option<&RacyCapsule>
        ensures { MatchOption result
            (slice_get self.now.capsules number ≡ None)
            (λ c. slice_get self.now.capsules number ≡ Some c.now) }
    {
        self.parts.capsules.as_slice().get(number as usize)
    }
}

/// Instructions, with a put in place of each compare-and-modify.
fn plain_instrs(alloc: Global, instrs: &[RacyInstr]) -> Result<Vec<Instr>, NoMemory>
    ensures { IfOk result (λ plain. plain.items ≡ map plain_of instrs.now) }
{
    let mut plain = Vec::new(alloc);
    let mut left = instrs;
    while let [instr, rest @ ..] = left {
        plain.push(instr.plain())?;
        left = rest;
    }
    Ok(plain)
}

/// Capsules, with a put in place of each compare-and-modify.
fn plain_capsules(alloc: Global, capsules: &[RacyCapsule]) -> Result<Vec<Capsule>, NoMemory>
    ensures { IfOk result (λ plain. plain.items ≡ map capsule_with_puts capsules.now) }
{
    let mut plain = Vec::new(alloc);
    let mut left = capsules;
    while let [capsule, rest @ ..] = left {
        plain.push(Capsule {
            procedure: capsule.procedure,
            instrs: Items::from_vec(plain_instrs(alloc, capsule.instrs.as_slice())?),
        })?;
        left = rest;
    }
    Ok(plain)
}

/// The code with a put in place of each compare-and-modify. `Err` only where memory is refused.
pub fn plain_code(alloc: Global, code: &RacyCode) -> Result<Code, NoMemory>
    ensures { IfOk result (λ plain. plain ≡ code_with_puts code.now) }
{
    let parts = code.parts();
    let arrays = Vec::from_slice(alloc, parts.arrays.as_slice())?;
    let procedures = Vec::from_slice(alloc, parts.procedures.as_slice())?;
    let capsules = plain_capsules(alloc, parts.capsules.as_slice())?;
    Ok(Code::from_parts(CodeParts {
        root: parts.root,
        arrays: Items::from_vec(arrays),
        procedures: Items::from_vec(procedures),
        capsules: Items::from_vec(capsules),
    }))
}
