//! Register work, from one step to the next.
ghost use Rattle.std.specs.Prelude.{◌≡◌, length};
ghost use Rattle.ppm_code.specs.Capsules.{capsule_from, reached, GoesOn};

use crate::act::{Act, End, Step};
use crate::instr::Instr;

/// What register work comes to.
#[derive(Clone, Copy, Debug, PartialEq, Eq)]
pub enum Reached {
    Before(Step),
    AtEnd(End),
}

/// What register work comes to, and the instruction after it.
#[derive(Clone, Copy, Debug, PartialEq, Eq)]
pub struct Stop {
    pub next: usize,
    pub what: Reached,
}

/// Does the register work of a capsule from an instruction to the next step or end.
#[inline(always)]
pub fn reach(instrs: &[Instr], array_words: u64, from: usize, registers: &mut [u64; 64]) -> Stop
    ensures left { capsule_from array_words 0 from instrs.now registers.old
        ≡ reached array_words instrs.now result.next result.what registers.new }
    ensures further { GoesOn from (length instrs.now) result.next result.what }
{
    let mut at = from;
    while at < instrs.len() {
        let act = instrs[at].act(registers, array_words);
        match act {
            Act::Sets(to, word) => {
                registers[usize::from(to.index)] = word;
                at += 1;
            }
            Act::Passes => at += 1,
            Act::Jumps(target) => at = (target as usize).max(at + 1),
            Act::Steps(step) => {
                return Stop {
                    next: at + 1,
                    what: Reached::Before(step),
                };
            }
            Act::Ends(end) => {
                return Stop {
                    next: at + 1,
                    what: Reached::AtEnd(end),
                };
            }
        }
    }
    Stop {
        next: at,
        what: Reached::AtEnd(End::Finish),
    }
}
