//! One capsule, run whole, with the array words that it touches.
ghost use Rattle.std.specs.Prelude.{◌≡◌, ◌<◌, ◌≤◌, IfOk, OnOk, length};
ghost use Rattle.ppm_strands.specs.Capsule.{Memory};
ghost use Rattle.ppm_code.specs.Code.{EndFits, IsCode};
ghost use Rattle.ppm_code.specs.Limits.{room_limit};
ghost use Rattle.ppm_code.specs.Locations.{Where};
ghost use Rattle.ppm_code.specs.Sizes.{procedure_at, size_at, slots_at};
ghost use Rattle.ppm_code.specs.Strands.{instrs_of as instrs_in_code};
ghost use Rattle.ppm_code.specs.Tidy.{IsTidy};
ghost use Rattle.ppm_depth.specs.Store.{Shows};
ghost use Rattle.ppm_depth.specs.Whole.{IsPlace, IsWhole, Keeps, block_at};
ghost use Rattle.ppm_races.specs.Touches.{AreThere, touches_of};

use crate::touch::{Touch, note};
use ppm_code::{Act, Code, End};
use ppm_depth::{Done, Place, Store, instrs_of};
use ppm_words::NoMemory;

/// Runs the capsule with a number whole, in the frame and the new block at a place, and notes which
/// array words it touches, in this order.
pub(crate) fn run_logged(
    code: &Code,
    number: u32,
    place: Place,
    store: &mut Store,
    log: &mut Vec<Touch>,
) -> Result<Done, NoMemory>
    requires there { number < length code.now.capsules }
    requires tidy { IsTidy code.now }
    requires place { IsPlace code.now number place store.old.blocks.items }
    ensures whole { IfOk result (λ done. (m : Memory Where)
        → Shows (slots_at code.now number) (block_at code.now number) place
        store.old.blocks.items store.old.words.items m
        → IsWhole code.now number place store.new.blocks.items store.new.words.items m done) }
    ensures log { OnOk result ((m : Memory Where)
        → Shows (slots_at code.now number) (block_at code.now number) place
        store.old.blocks.items store.old.words.items m
        → log.new.items
        ≡ touches_of (length store.old.words.items) (instrs_in_code code.now number) m) }
    ensures there { OnOk result (AreThere (length store.old.words.items) log.new.items) }
    ensures kept { OnOk result (Keeps place (size_at code.now number)
        store.old.blocks.items store.new.blocks.items) }
    ensures words { OnOk result (length store.new.words.items ≡ length store.old.words.items) }
    ensures asked { IfOk result (λ done. done.asked ≤ room_limit) }
    ensures end { IfOk result (λ done. EndFits code.now (procedure_at code.now number)
        (instrs_in_code code.now number) done.end) }
    ensures code { IsCode code.now }
{
    let instrs = instrs_of(code, number);
    let array_words = store.words.as_slice().len() as u64;
    let mut registers = [0; 64];
    let mut asked = 0;
    let mut at = 0;
    log.truncate(0);
    while at < instrs.len() {
        match instrs[at].act(&registers, array_words) {
            Act::Sets(to, word) => {
                registers[usize::from(to.index)] = word;
                at += 1;
            }
            Act::Passes => at += 1,
            Act::Jumps(target) => at = (target as usize).max(at + 1),
            Act::Steps(step) => {
                note(log, step, at)?;
                asked += store.step(place, step, &mut registers);
                at += 1;
            }
            Act::Ends(end) => return Ok(Done { end, asked }),
        }
    }
    Ok(Done {
        end: End::Finish,
        asked,
    })
}
