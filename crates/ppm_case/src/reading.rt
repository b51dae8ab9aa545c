//! Reads cases.
ghost use Rattle.std.specs.Prelude.{◌≡◌, ◌↔◌, IsTrue, nat_lt, IfOk, IfErr};
ghost use Rattle.std.specs.List.{list_all};
ghost use Rattle.ppm_code.specs.Code.{IsCode};
ghost use Rattle.ppm_depth.specs.Start.{NamesArrays};
ghost use Rattle.ppm_case.specs.Rules.{case_limit};
ghost use Rattle.ppm_case.specs.Case.{IsCaseOf};
ghost use Rattle.ppm_case.specs.Faults.{IsRefusal};

use crate::arrays::read_arrays;
use crate::case::Case;
use crate::case_error::{CaseError, InputFault};
use ppm_code::Code;
use ppm_listing_reader::read_listing;
use ppm_words::{Input, NamedArray};
use std::alloc::Global;

/// The bytes of a case, at most.
pub const CASE_LIMIT: usize = 536_870_912;

/// Whether all numbers are below a limit.
pub fn are_below(numbers: &[u32], limit: usize) -> bool
    ensures { result ≡ list_all (λ number. nat_lt number limit) numbers.now }
{
    let mut left = numbers;
    while let [number, rest @ ..] = left {
        if !((*number as usize) < limit) {
            return false;
        }
        left = rest;
    }
    true
}

/// Whether the root of a code names none but these arrays.
fn names_arrays(code: &Code, arrays: &[NamedArray]) -> bool
    ensures exactly { IsTrue result ↔ NamesArrays code.now arrays.now }
    ensures code { IsCode code.now }
{
    are_below(code.parts().arrays.as_slice(), arrays.len())
}

/// Whether so many bytes are more than a case may have.
fn is_too_long(bytes: usize) -> bool
    ensures { result ≡ nat_lt case_limit bytes }
{
    bytes > CASE_LIMIT
}

/// The case of a text. `Err` with the first fault of a text that is of none, or where memory is
/// refused: no value is put into memory before all words of its array were counted.
pub fn read_case(alloc: Global, text: &[u8]) -> Result<Case, CaseError>
    ensures ok { IfOk result (λ case. IsCaseOf text.now case.code case.input) }
    ensures err { IfErr result (IsRefusal text.now) }
{
    if is_too_long(text.len()) {
        return Err(CaseError::of_input(InputFault::TooMuch, 1));
    }
    let read = read_arrays(alloc, text)?;
    let code = match read_listing(alloc, read.rest) {
        Ok(code) => code,
        Err(error) => return Err(CaseError::of_listing(read.lines, error)),
    };
    if !names_arrays(&code, &read.arrays) {
        return Err(CaseError::of_input(InputFault::NotThere, read.lines + 2));
    }
    Ok(Case {
        code,
        input: Input::from_vec(read.arrays),
    })
}
