//! Register work, from one touch of a word to the next.
ghost use Rattle.std.specs.Prelude.{◌≡◌, List};
ghost use Rattle.ppm_filled.specs.Racing.{OwnWord};
ghost use Rattle.ppm_racy.specs.Capsules.{capsule_from, reached, TouchesWithin};

use crate::instr::{RacyAct, RacyInstr};
use ppm_code::{Act, End, Location, Register, Step};

/// What register work comes to: a word is touched, or the capsule ends. To ask for room touches
/// none.
#[derive(Clone, Copy, Debug, PartialEq, Eq)]
pub enum Touch {
    /// The word at a location goes into a register.
    Loads(Location, Register),
    /// A word goes to a location.
    Stores(Location, u64),
    /// An array word becomes the new one if it is the old one.
    Exchanges { word: u64, old: u64, new: u64 },
    /// The capsule ends.
    Ends(End),
}

/// What register work comes to, and the instruction after it.
#[derive(Clone, Copy, Debug, PartialEq, Eq)]
pub struct Stop {
    pub next: usize,
    pub touch: Touch,
}

/// Does the register work of a capsule from an instruction to its next touch of a word, or to its
/// end.
pub fn reach(instrs: &[RacyInstr], array_words: u64, from: usize, registers: &mut [u64; 64]) -> Stop
    ensures left { (block : List OwnWord)
        → capsule_from block array_words 0 from instrs.now registers.old
        ≡ reached block array_words instrs.now result.next result.touch registers.new }
    ensures within { TouchesWithin array_words result.touch }
{
    let mut at = from;
    while at < instrs.len() {
        let act = instrs[at].act(registers, array_words);
        match act {
            RacyAct::Exchanges { word, old, new } => {
                return Stop {
                    next: at + 1,
                    touch: Touch::Exchanges { word, old, new },
                };
            }
            RacyAct::Plain(plain) => match plain {
                Act::Sets(to, word) => {
                    registers[usize::from(to.index)] = word;
                    at += 1;
                }
                Act::Passes => at += 1,
                Act::Jumps(target) => at = (target as usize).max(at + 1),
                Act::Steps(step) => match step {
                    Step::Asks(_) => at += 1,
                    Step::Loads(location, to) => {
                        return Stop {
                            next: at + 1,
                            touch: Touch::Loads(location, to),
                        };
                    }
                    Step::Stores(location, word) => {
                        return Stop {
                            next: at + 1,
                            touch: Touch::Stores(location, word),
                        };
                    }
                },
                Act::Ends(end) => {
                    return Stop {
                        next: at + 1,
                        touch: Touch::Ends(end),
                    };
                }
            },
        }
    }
    Stop {
        next: at,
        touch: Touch::Ends(End::Finish),
    }
}
