//! The names of a saved state.
ghost use Rattle.std.specs.Prelude.{◌≡◌, IfOk, length, map};
ghost use Rattle.std.specs.List.{range_with_len};
ghost use Rattle.ppm_naming.specs.declared.names.ProcedureName.TheVariants.{Numbered};
ghost use Rattle.ppm_show.specs.Names.{saved_names as names_of_saved};

use ppm_code::Code;
use ppm_naming::{Names, ProcedureName};
use ppm_saved::NamedLength;
use ppm_words::{Items, Name, NoMemory};
use std::alloc::Global;

/// The names of arrays.
fn array_names(alloc: Global, arrays: &[NamedLength]) -> Result<Vec<Name>, NoMemory>
    ensures { IfOk result (λ names. names.items ≡ map (λ a. a.name) arrays.now) }
{
    let mut names = Vec::new(alloc);
    let mut left = arrays;
    while let [array, rest @ ..] = left {
        names.push(array.name.try_clone(alloc)?)?;
        left = rest;
    }
    Ok(names)
}

/// The names of procedures that have numbers alone.
fn procedure_numbers(alloc: Global, count: u32) -> Result<Vec<ProcedureName>, NoMemory>
    ensures { IfOk result (λ names. names.items ≡ map Numbered (range_with_len 0 count)) }
{
    let mut names = Vec::new(alloc);
    for number in 0..count {
        names.push(ProcedureName::Numbered(number))?;
    }
    Ok(names)
}

/// The names of the arrays and the procedures of a saved state. `Err` only where memory is refused.
pub fn saved_names(alloc: Global, arrays: &[NamedLength], code: &Code) -> Result<Names, NoMemory>
    ensures { IfOk result (λ names. names ≡ names_of_saved arrays.now code.now) }
{
    let count = code.parts().procedures.as_slice().len() as u32;
    let arrays = array_names(alloc, arrays)?;
    let procedures = procedure_numbers(alloc, count)?;
    Ok(Names {
        arrays: Items::from_vec(arrays),
        procedures: Items::from_vec(procedures),
    })
}
