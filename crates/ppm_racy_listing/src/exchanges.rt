//! Codes with the exchanges of their lines.
ghost use Rattle.std.specs.Prelude.{◌≡◌, ◌<◌, ◌≤◌, ◌+◌, ◌*◌, ◌^◌, nat_lt, None, IfOk, get_or};
ghost use Rattle.std.specs.Prelude.{length};
ghost use Rattle.std.specs.List.{AllByRecursion};
ghost use Rattle.std.proofs.Common.{refl};
ghost use Rattle.ppm_listing_reader.specs.Forms.{register_with};
ghost use Rattle.ppm_racy.specs.Code.{plain_code};
ghost use Rattle.ppm_racy_listing.specs.Exchanges.{exchanged, exchanged_instrs, exchanged_capsules};
ghost use Rattle.ppm_racy_listing.specs.Exchanges.{exchanged_code};

use ppm_code::{Capsule, Code, Instr, Register};
use ppm_racy::{RacyCapsule, RacyCode, RacyInstr, RacyParts};
use ppm_words::{Items, NoMemory};
use std::alloc::Global;

/// The register with a number, or the last one.
fn register(number: u64) -> Register
    ensures { result ≡ register_with number (nat_lt number 64) refl }
{
    match Register::new(number.min(63) as u8) {
        Some(register) => register,
        None => unreachable!(),
    }
}

/// An instruction, which is an exchange where it is a put and its line says an old register.
fn racy_instr(instr: Instr, old: Option<u64>) -> RacyInstr
    ensures { result ≡ exchanged instr old }
{
    if let Instr::Put {
        region,
        index,
        from,
        line,
    } = instr
    {
        if let Some(old) = old {
            return RacyInstr::Cam {
                region,
                index,
                old: register(old),
                new: from,
                line,
            };
        }
    }
    RacyInstr::Plain(instr)
}

/// The old register that a line says, if there is such a line and it says one.
fn old_at(olds: &[Option<u64>], line: usize) -> Option<u64>
    ensures { result ≡ get_or olds.now line None }
{
    match olds.get(line) {
        Some(old) => *old,
        None => None,
    }
}

/// Instructions whose lines have the numbers from one on.
fn racy_instrs(
    alloc: Global,
    olds: &[Option<u64>],
    line: usize,
    instrs: &[Instr],
) -> Result<Vec<RacyInstr>, NoMemory>
    requires { line + length instrs.now < 2 ^ 64 }
    ensures { IfOk result (λ racy. racy.items ≡ exchanged_instrs olds.now line instrs.now) }
{
    let mut racy = Vec::new(alloc);
    let mut line = line;
    let mut left = instrs;
    while let [instr, rest @ ..] = left {
        racy.push(racy_instr(*instr, old_at(olds, line)))?;
        line += 1;
        left = rest;
    }
    Ok(racy)
}

/// Capsules, the first of which has its line at a number.
fn racy_capsules(
    alloc: Global,
    olds: &[Option<u64>],
    line: usize,
    capsules: &[Capsule],
) -> Result<Vec<RacyCapsule>, NoMemory>
    requires lines { line + 161 * length capsules.now < 2 ^ 32 }
    requires small { AllByRecursion (λ c. length c.instrs ≤ 160) capsules.now }
    ensures { IfOk result (λ racy. racy.items ≡ exchanged_capsules olds.now line capsules.now) }
{
    let mut racy = Vec::new(alloc);
    let mut line = line;
    let mut left = capsules;
    while let [capsule, rest @ ..] = left {
        let instrs = capsule.instrs.as_slice();
        racy.push(RacyCapsule {
            procedure: capsule.procedure,
            instrs: Items::from_vec(racy_instrs(alloc, olds, line + 1, instrs)?),
        })?;
        line += 1 + instrs.len();
        left = rest;
    }
    Ok(racy)
}

/// The code with an exchange in place of each put whose line says an old register; `olds` are those
/// of the lines of its listing.
pub fn with_exchanges(
    alloc: Global,
    code: &Code,
    olds: &[Option<u64>],
) -> Result<RacyCode, NoMemory>
    ensures code { IfOk result (λ racy. racy ≡ exchanged_code olds.now code.now) }
    ensures plain { IfOk result (λ racy. plain_code racy ≡ code.now) }
{
    let parts = code.parts();
    let arrays = Vec::from_slice(alloc, parts.arrays.as_slice())?;
    let procedures = Vec::from_slice(alloc, parts.procedures.as_slice())?;
    let line = 2 + parts.procedures.as_slice().len();
    let capsules = racy_capsules(alloc, olds, line, parts.capsules.as_slice())?;
    Ok(RacyCode::from_parts(RacyParts {
        root: parts.root,
        arrays: Items::from_vec(arrays),
        procedures: Items::from_vec(procedures),
        capsules: Items::from_vec(capsules),
    }))
}
