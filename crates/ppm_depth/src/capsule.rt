//! One capsule, run whole.
ghost use Rattle.std.specs.Prelude.{◌≡◌, ◌<◌, ◌≤◌, length};
ghost use Rattle.ppm_strands.specs.Capsule.{Memory};
ghost use Rattle.ppm_code.specs.Code.{EndFits, IsCode, room_of};
ghost use Rattle.ppm_code.specs.Limits.{room_limit};
ghost use Rattle.ppm_code.specs.Locations.{Where};
ghost use Rattle.ppm_code.specs.Sizes.{procedure_at, size_at, slots_at};
ghost use Rattle.ppm_code.specs.Strands.{instrs_of as instrs_in_code};
ghost use Rattle.ppm_code.specs.Tidy.{IsTidy};
ghost use Rattle.ppm_depth.specs.Store.{Shows};
ghost use Rattle.ppm_depth.specs.Whole.{IsPlace, IsWhole, Keeps, block_at, kept_of};

use crate::store::{Place, Store};
use ppm_code::{Act, Code, End, Instr};

/// How a capsule has ended, and the words that it asked for.
#[derive(Clone, Copy, Debug, PartialEq, Eq)]
pub struct Done {
    pub end: End,
    pub asked: u32,
}

/// The instructions of a capsule.
pub fn instrs_of(code: &Code, number: u32) -> &[Instr]
    requires { number < length code.now.capsules }
    ensures value { result.now ≡ instrs_in_code code.now number }
    ensures code { IsCode code.now }
{
    let parts = code.parts();
    parts.capsules.as_slice()[number as usize].instrs.as_slice()
}

/// The words of a new block that a capsule may store into: those that it asks for, and no more than
/// the largest fork block has.
pub fn block_words(instrs: &[Instr]) -> usize
    ensures { result ≡ kept_of (room_of instrs.now) }
{
    match instrs {
        [Instr::Room { words }, ..] => (*words as usize).min(67),
        _ => 0,
    }
}

/// Runs the capsule with a number whole, in the frame and the new block at a place.
pub fn run_capsule(code: &Code, number: u32, place: Place, store: &mut Store) -> Done
    requires there { number < length code.now.capsules }
    requires tidy { IsTidy code.now }
    requires place { IsPlace code.now number place store.old.blocks.items }
    ensures whole { (m : Memory Where)
        → Shows (slots_at code.now number) (block_at code.now number) place store.old.blocks.items store.old.words.items m
        → IsWhole code.now number place store.new.blocks.items store.new.words.items m result }
    ensures kept { Keeps place (size_at code.now number) store.old.blocks.items store.new.blocks.items }
    ensures words { length store.new.words.items ≡ length store.old.words.items }
    ensures asked { result.asked ≤ room_limit }
    ensures end { EndFits code.now (procedure_at code.now number) (instrs_in_code code.now number) result.end }
{
    let instrs = instrs_of(code, number);
    let array_words = store.words.as_slice().len() as u64;
    let mut registers = [0; 64];
    let mut asked = 0;
    let mut at = 0;
    while at < instrs.len() {
        match instrs[at].act(&registers, array_words) {
            Act::Sets(to, word) => {
                registers[usize::from(to.index)] = word;
                at += 1;
            }
            Act::Passes => at += 1,
            Act::Jumps(target) => at = (target as usize).max(at + 1),
            Act::Steps(step) => {
                asked += store.step(place, step, &mut registers);
                at += 1;
            }
            Act::Ends(end) => return Done { end, asked },
        }
    }
    Done {
        end: End::Finish,
        asked,
    }
}
