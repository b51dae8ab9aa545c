//! A machine that is turned by hand.
ghost use Rattle.std.specs.Prelude.{◌≡◌, ◌≤◌, ◌^◌, IfOk};
ghost use Rattle.ppm_words.specs.Inputs.{value_count};
ghost use Rattle.ppm_core.specs.Machine.{seen};
ghost use Rattle.ppm_calls.specs.Turns.{HasTakenTurns};

use ppm_case::Case;
use ppm_cells::Shape;
use ppm_core::{Act, Machine, Turn};
use ppm_layout::image;
use ppm_words::NoMemory;
use std::alloc::Global;

/// The machine of a case after its processors have made steps in turn, from processor 0 on: so many
/// steps in all, or fewer where the finish word is set before. Where a processor looks for work, it
/// looks at the place of the next one.
pub fn take_turns(alloc: Global, case: Case, shape: Shape, most: u64) -> Result<Machine, NoMemory>
    requires arrays { shape.arrays ≡ value_count case.input }
    requires few { most ≤ 2 ^ 62 }
    ensures { IfOk result (λ machine. HasTakenTurns case.code case.input shape most (seen machine)) }
{
    // Processor 0 has the root of the code at its place; the others look for work.
    let words = image(alloc, &case.code, &case.input, shape, 0)?;
    let mut machine = Machine::load(alloc, words, case.code)?;
    let processors = u64::from(machine.processors());
    for number in 0..most {
        if machine.finish_word() != 0 {
            return Ok(machine);
        }
        let processor = (number % processors) as u32;
        let victim = ((number + 1) % processors) as u32;
        machine.turn(Turn {
            processor,
            act: Act::Step { victim },
        });
    }
    Ok(machine)
}
