//! Copies of what a machine holds. `Err` comes only where memory is refused.
ghost use Rattle.std.specs.Prelude.{◌≡◌, IfOk};

use ppm_code::{Capsule, Code, CodeParts};
use ppm_step::Local;
use ppm_words::{Items, NoMemory};
use std::alloc::Global;

/// A copy of a code.
pub fn code_copy(alloc: Global, code: &Code) -> Result<Code, NoMemory>
    ensures { IfOk result (λ copy. copy ≡ code.now) }
{
    let parts = code.parts();
    let arrays = Vec::from_slice(alloc, parts.arrays.as_slice())?;
    let procedures = Vec::from_slice(alloc, parts.procedures.as_slice())?;
    let capsules = capsules_copy(alloc, parts.capsules.as_slice())?;
    Ok(Code::from_parts(CodeParts {
        root: parts.root,
        arrays: Items::from_vec(arrays),
        procedures: Items::from_vec(procedures),
        capsules: Items::from_vec(capsules),
    }))
}

/// A copy of some capsules.
fn capsules_copy(alloc: Global, capsules: &[Capsule]) -> Result<Vec<Capsule>, NoMemory>
    ensures { IfOk result (λ copy. copy.items ≡ capsules.now) }
{
    let mut copy = Vec::new(alloc);
    let mut left = capsules;
    while let [capsule, rest @ ..] = left {
        let instrs = Vec::from_slice(alloc, capsule.instrs.as_slice())?;
        copy.push(Capsule {
            procedure: capsule.procedure,
            instrs: Items::from_vec(instrs),
        })?;
        left = rest;
    }
    Ok(copy)
}

/// A copy of some processors' own states.
pub(crate) fn locals_copy(alloc: Global, locals: &[Local]) -> Result<Vec<Local>, NoMemory>
    ensures { IfOk result (λ copy. copy.items ≡ locals.now) }
{
    let mut copy = Vec::new(alloc);
    let mut left = locals;
    while let [local, rest @ ..] = left {
        copy.push(Local {
            own: local.own,
            stand: local.stand,
            registers: local.registers,
        })?;
        left = rest;
    }
    Ok(copy)
}
