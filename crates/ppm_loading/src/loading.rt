//! The machine with which a run of a code on an input begins, or that of a program, and such a
//! machine as a table that threads share.
ghost use Rattle.std.specs.Prelude.{◌≡◌, ◌<◌, ◌≤◌, IfOk};
ghost use Rattle.ppm_words.specs.Limits.{word_limit};
ghost use Rattle.ppm_tree.specs.Tree.{tree_of};
ghost use Rattle.ppm_tree.specs.Program.{initial_arrays};
ghost use Rattle.ppm_cut_bounds.specs.Bounds.{IsWithinBounds};
ghost use Rattle.ppm_cut_code.specs.Routines.{code_of};
ghost use Rattle.ppm_depth.specs.Start.{NamesArrays};
ghost use Rattle.ppm_core.specs.Machine.{seen};
ghost use Rattle.ppm_core.specs.Situation.{loaded};
ghost use Rattle.ppm_table.specs.Shown.{AreNewOf};
ghost use Rattle.ppm_loading.specs.Loading.{AreSizes, HasShape, OpensRun, opened_by};

use crate::arrays::count_of;
use ppm_cells::{Shape, Takeover};
use ppm_code::Code;
use ppm_core::Machine;
use ppm_cut::cut;
use ppm_cut_correct::{name_arrays, start_with_input};
use ppm_layout::{Image, image};
use ppm_regions::Admitted;
use ppm_table::{Processor, Shared};
use ppm_words::{Input, NoMemory};
use std::alloc::Global;

/// The sizes of a machine that a command's options say: all but its array words, which are the
/// program's.
#[derive(Clone, Copy, Debug, PartialEq, Eq)]
pub struct Sizes {
    /// How many processors there are, and as many places: 1 to 64.
    pub processors: u32,
    /// The words of a place's pool: 64 or more, with 67,108,864 at most in all pools together.
    pub room: u32,
    /// The entries of a place's deque: 2 to 65,536.
    pub slots: u32,
    /// How the strand and the jobs of a dead processor are taken over.
    pub takeover: Takeover,
}

/// The shape with these sizes, and with so many array words, 4,194,304 at most.
fn shape_of(sizes: Sizes, arrays: u32) -> Shape
    requires sizes { AreSizes sizes }
    requires arrays { arrays ≤ word_limit }
    ensures { HasShape sizes arrays result }
{
    Shape {
        processors: sizes.processors,
        room: sizes.room,
        slots: sizes.slots,
        arrays,
        takeover: sizes.takeover,
    }
}

/// The code of a program.
pub fn program_code(alloc: Global, program: &Admitted) -> Result<Code, NoMemory>
    requires bounded { IsWithinBounds (tree_of program.now) }
    ensures code { IfOk result (λ code. code ≡ code_of (tree_of program.now)) }
    ensures names { IfOk result (λ code. NamesArrays code (initial_arrays (tree_of program.now))) }
{
    // The root of a program's code names arrays of what the program starts with; the calls do
    // nothing.
    start_with_input();
    name_arrays();
    // What the type of its tree keeps is known once its tree was seen.
    let _ = program.program().tree();
    let code = cut(alloc, program.program())?;
    Ok(code)
}

/// The image of the words with which a run of a code on an input begins: it has these sizes, the
/// arrays of the input, and the root's frame at the place of the keeper.
fn opened(
    alloc: Global,
    sizes: Sizes,
    code: &Code,
    input: &Input,
    keeper: u32,
) -> Result<Image, NoMemory>
    requires sizes { AreSizes sizes }
    requires keeper { keeper < sizes.processors }
    requires names { NamesArrays code.now input.now }
    ensures { IfOk result (λ image. OpensRun sizes code.now input.now keeper
        (loaded image.shape code.now image.lengths image.words)) }
{
    let shape = shape_of(sizes, count_of(input.arrays()));
    let words = image(alloc, code, input, shape, keeper)?;
    Ok(words)
}

/// The machine with these sizes on which a run of a code on an input begins. `Err` only where
/// memory is refused.
pub fn load_code(
    alloc: Global,
    sizes: Sizes,
    code: Code,
    input: &Input,
    keeper: u32,
) -> Result<Machine, NoMemory>
    requires sizes { AreSizes sizes }
    requires keeper { keeper < sizes.processors }
    requires names { NamesArrays code input.now }
    ensures { IfOk result (λ machine. OpensRun sizes code input.now keeper (seen machine)) }
{
    let image = opened(alloc, sizes, &code, input, keeper)?;
    let machine = Machine::load(alloc, image, code)?;
    Ok(machine)
}

/// The machine with these sizes on which a run of a program begins. `Err` only where memory is
/// refused.
pub fn load(
    alloc: Global,
    sizes: Sizes,
    program: &Admitted,
    keeper: u32,
) -> Result<Machine, NoMemory>
    requires sizes { AreSizes sizes }
    requires keeper { keeper < sizes.processors }
    requires bounded { IsWithinBounds (tree_of program.now) }
    ensures { IfOk result (λ machine. OpensRun sizes (code_of (tree_of program.now)) (initial_arrays (tree_of program.now)) keeper
        (seen machine)) }
{
    let code = program_code(alloc, program)?;
    let machine = load_code(alloc, sizes, code, program.input(), keeper)?;
    Ok(machine)
}

/// The machine of a code on an input as a table that threads share, and its processors, none of
/// which has done anything. `Err` only where memory is refused.
pub fn share_code(
    alloc: Global,
    sizes: Sizes,
    code: Code,
    input: &Input,
    keeper: u32,
) -> Result<(Shared, Vec<Processor>), NoMemory>
    requires sizes { AreSizes sizes }
    requires keeper { keeper < sizes.processors }
    requires names { NamesArrays code input.now }
    ensures opens { IfOk result (λ r. OpensRun sizes code input.now keeper (opened_by r.0)) }
    ensures processors { IfOk result (λ r. AreNewOf r.0 r.1.items) }
{
    share_code_to_count(alloc, sizes, code, input, keeper, false)
}

/// That table, whose processors count their acts, or don't. `Err` only where memory is refused.
pub fn share_code_to_count(
    alloc: Global,
    sizes: Sizes,
    code: Code,
    input: &Input,
    keeper: u32,
    counted: bool,
) -> Result<(Shared, Vec<Processor>), NoMemory>
    requires sizes { AreSizes sizes }
    requires keeper { keeper < sizes.processors }
    requires names { NamesArrays code input.now }
    ensures opens { IfOk result (λ r. OpensRun sizes code input.now keeper (opened_by r.0)) }
    ensures processors { IfOk result (λ r. AreNewOf r.0 r.1.items) }
    ensures counted { IfOk result (λ r. r.0.counted ≡ counted) }
{
    let image = opened(alloc, sizes, &code, input, keeper)?;
    let table = Shared::load_to_count(alloc, image, code, counted)?;
    Ok(table)
}
