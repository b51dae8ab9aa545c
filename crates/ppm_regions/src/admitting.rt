//! From a program to an admitted one.
ghost use Rattle.std.specs.Prelude.{◌≡◌, IfOk, IfErr};
ghost use Rattle.ppm_tree.specs.Tree.{tree_of};
ghost use Rattle.ppm_regions.specs.Admission.{IsRefused};

use crate::admitted::Admitted;
use crate::initial::initial_input;
use crate::program::in_program;
use crate::region_error::RegionError;
use ppm_tree::Program;
use std::alloc::Global;

/// The program with the arrays that it starts with, where it keeps the rules of names and regions;
/// else the fault of the least number, and of these the first in the text.
pub fn admit(alloc: Global, program: Program) -> Result<Admitted, RegionError>
    ensures admitted { IfOk result (λ a. a ≡ program) }
    ensures refused { IfErr result (IsRefused (tree_of program)) }
{
    if let Some(error) = in_program(alloc, program.tree())? {
        return Err(error);
    }
    let input = initial_input(alloc, &program)?;
    Ok(Admitted::from_parts(program, input))
}
