//! Instructions of capsules that may race.
ghost use Rattle.std.specs.Prelude.{◌≡◌};
ghost use Rattle.ppm_code.specs.declared.act.Act.TheVariants.{Steps};
ghost use Rattle.ppm_code.specs.declared.act.Step.TheVariants.{Stores};
ghost use Rattle.ppm_racy.specs.Acts.{does, exchanging as exchanging_by, plain_of};

use ppm_code::{Act, Instr, Location, Register, Step};

/// An instruction, or a compare-and-modify: the element `index` of a region becomes what register
/// `new` holds if it is what register `old` holds; else it stays. No register changes. `line` is
/// where the source traps, from 1.
#[derive(Clone, Copy, Debug, PartialEq, Eq)]
pub enum RacyInstr {
    Plain(Instr),
    Cam {
        region: Register,
        index: Register,
        old: Register,
        new: Register,
        line: u32,
    },
}

/// What an instruction does with the registers as they are.
#[derive(Clone, Copy, Debug, PartialEq, Eq)]
pub enum RacyAct {
    /// What an instruction of a code does.
    Plain(Act),
    /// An array word becomes the new one if it is the old one, and the next instruction follows.
    Exchanges { word: u64, old: u64, new: u64 },
}

/// What a compare-and-modify does where a put in its place does this.
fn exchanging(old: u64, act: Act) -> RacyAct
    ensures { result ≡ exchanging_by old act }
{
    match act {
        Act::Steps(step) => exchanging_step(old, step),
        Act::Sets(..) | Act::Passes | Act::Jumps(_) | Act::Ends(_) => RacyAct::Plain(act),
    }
}

/// What a compare-and-modify does where a put in its place makes this step.
fn exchanging_step(old: u64, step: Step) -> RacyAct
    ensures { result ≡ exchanging_by old (Steps step) }
{
    match step {
        Step::Stores(location, new) => exchanging_at(old, location, new),
        Step::Loads(..) | Step::Asks(_) => RacyAct::Plain(Act::Steps(step)),
    }
}

/// What a compare-and-modify does where a put in its place stores a word to this location.
fn exchanging_at(old: u64, location: Location, new: u64) -> RacyAct
    ensures { result ≡ exchanging_by old (Steps (Stores location new)) }
{
    match location {
        Location::Array(word) => RacyAct::Exchanges { word, old, new },
        Location::Frame(_) | Location::New(_) => {
            RacyAct::Plain(Act::Steps(Step::Stores(location, new)))
        }
    }
}

impl RacyInstr {
    /// The instruction, with a put in place of a compare-and-modify.
    pub fn plain(self) -> Instr
        ensures { result ≡ plain_of self }
    {
        match self {
            RacyInstr::Plain(instr) => instr,
            RacyInstr::Cam {
                region,
                index,
                new,
                line,
                ..
            } => Instr::Put {
                region,
                index,
                from: new,
                line,
            },
        }
    }

    /// What the instruction does where the registers hold these words and there are so many array
    /// words.
    pub fn act(self, registers: &[u64; 64], array_words: u64) -> RacyAct
        ensures { result ≡ does array_words self registers.now }
    {
        let act = self.plain().act(registers, array_words);
        match self {
            RacyInstr::Plain(_) => RacyAct::Plain(act),
            RacyInstr::Cam { old, .. } => exchanging(registers[usize::from(old.index)], act),
        }
    }
}
