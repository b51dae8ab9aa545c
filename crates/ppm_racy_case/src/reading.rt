//! Reads cases whose strands may race.
ghost use Rattle.std.specs.Prelude.{◌≡◌, ◌↔◌, IsTrue, IfOk, IfErr, nat_lt};
ghost use Rattle.ppm_depth.specs.Start.{NamesArrays};
ghost use Rattle.ppm_case.specs.Rules.{case_limit};
ghost use Rattle.ppm_racy.specs.Code.{IsRacyCode, plain_code};
ghost use Rattle.ppm_racy_case.specs.Case.{IsRacyCaseOf};
ghost use Rattle.ppm_racy_case.specs.Faults.{IsRacyCaseRefusal};

use crate::racy_case::RacyCase;
use ppm_case::{CASE_LIMIT, CaseError, InputFault, are_below, read_arrays};
use ppm_racy::RacyCode;
use ppm_racy_listing::read_racy_listing;
use ppm_words::{Input, NamedArray};
use std::alloc::Global;

/// Whether the root of a code names none but these arrays.
fn names_arrays(code: &RacyCode, arrays: &[NamedArray]) -> bool
    ensures exactly { IsTrue result ↔ NamesArrays (plain_code code.now) arrays.now }
    ensures code { IsRacyCode code.now }
{
    are_below(code.parts().arrays.as_slice(), arrays.len())
}

/// Whether so many bytes are more than a case may have.
fn is_too_long(bytes: usize) -> bool
    ensures { result ≡ nat_lt case_limit bytes }
{
    bytes > CASE_LIMIT
}

/// The case of a text, whose strands may race. `Err` with the first fault of a text that is of
/// none, or where memory is refused.
pub fn read_racy_case(alloc: Global, text: &[u8]) -> Result<RacyCase, CaseError>
    ensures ok { IfOk result (λ case. IsRacyCaseOf text.now case.code case.input) }
    ensures err { IfErr result (IsRacyCaseRefusal text.now) }
{
    if is_too_long(text.len()) {
        return Err(CaseError::of_input(InputFault::TooMuch, 1));
    }
    let read = read_arrays(alloc, text)?;
    let code = match read_racy_listing(alloc, read.rest) {
        Ok(code) => code,
        Err(error) => return Err(CaseError::of_listing(read.lines, error)),
    };
    if !names_arrays(&code, &read.arrays) {
        return Err(CaseError::of_input(InputFault::NotThere, read.lines + 2));
    }
    Ok(RacyCase {
        code,
        input: Input::from_vec(read.arrays),
    })
}
