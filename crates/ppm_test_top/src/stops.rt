//! Capsules of listings that are accepted, stopped after each word step and begun again, over plain
//! words.
use ppm_code::{Act, End, FrameWord, Instr, Location, Step};
use ppm_listing_reader::read_listing;
use ppm_war::check;
use std::alloc::Global;
use std::process::Abort;
use std::test::Fail;

/// The array words of the tests.
const ARRAY_WORDS: usize = 4;

/// The words that a capsule reads and writes.
#[derive(Clone, Copy, Debug, PartialEq, Eq)]
struct Words {
    slots: [u64; 25],
    value: u64,
    block: [u64; 32],
    arrays: [u64; ARRAY_WORDS],
}

impl Words {
    /// Slot 0 holds the region of all array words, and slot 3 a number that is not 0.
    fn new() -> Words {
        let mut slots = [0; 25];
        slots[0] = ARRAY_WORDS as u64;
        slots[1] = 1;
        slots[2] = 9;
        slots[3] = 5;
        Words {
            slots,
            value: 0,
            block: [0; 32],
            arrays: [7, 8, 9, 10],
        }
    }

    /// The word at a location.
    fn at(&mut self, location: Location) -> Option<&mut u64> {
        match location {
            Location::Frame(FrameWord::Slot(slot)) => self.slots.get_mut(slot as usize),
            Location::Frame(FrameWord::Value) => Some(&mut self.value),
            Location::New(word) => self.block.get_mut(word as usize),
            Location::Array(word) => self.arrays.get_mut(word as usize),
        }
    }

    /// Makes a word step.
    fn make(&mut self, step: Step, registers: &mut [u64; 64]) -> Result<(), Fail> {
        match step {
            Step::Loads(from, to) => {
                registers[to.index as usize] = *self.at(from).ok_or("no such word")?;
            }
            Step::Stores(to, word) => *self.at(to).ok_or("no such word")? = word,
            Step::Asks(_) => {}
        }
        Ok(())
    }
}

/// Begins a capsule, and goes on to its end, or until it has made so many word steps: then it is
/// stopped.
fn begin(instrs: &[Instr], words: &mut Words, mut steps: usize) -> Result<Option<End>, Fail> {
    let mut registers = [0; 64];
    let mut next = 0;
    for (at, instr) in instrs.iter().enumerate() {
        if at < next {
            continue;
        }
        match instr.act(&registers, ARRAY_WORDS as u64) {
            Act::Sets(to, word) => registers[to.index as usize] = word,
            Act::Passes => {}
            Act::Jumps(target) => next = target as usize,
            Act::Steps(step) => {
                if steps == 0 {
                    return Ok(None);
                }
                steps -= 1;
                words.make(step, &mut registers)?;
            }
            Act::Ends(end) => return Ok(Some(end)),
        }
    }
    Ok(None)
}

/// The end and the words of a capsule that is stopped after each of these numbers of word steps.
fn with_stops(instrs: &[Instr], stops: &[usize]) -> Result<(Option<End>, Words), Fail> {
    let mut words = Words::new();
    for steps in stops {
        begin(instrs, &mut words, *steps)?;
    }
    let end = begin(instrs, &mut words, 160)?;
    Ok((end, words))
}

/// Whether stops change neither the end nor the words: one after each number of word steps that a
/// capsule may make, or two after up to eight each.
fn may_be_stopped(instrs: &[Instr]) -> Result<bool, Fail> {
    let without = with_stops(instrs, &[])?;
    for steps in 0..161 {
        if with_stops(instrs, &[steps])? != without {
            return Ok(false);
        }
    }
    for first in 0..9 {
        for second in 0..9 {
            if with_stops(instrs, &[first, second])? != without {
                return Ok(false);
            }
        }
    }
    Ok(true)
}

/// Whether a listing is accepted, and whether all its capsules may be stopped.
fn judged(alloc: Global, listing: &str) -> Result<(bool, bool), Fail> {
    let code = read_listing(alloc, listing.as_bytes()).map_err(|_| "no listing")?;
    let mut all = true;
    for capsule in code.parts().capsules.as_slice() {
        if !may_be_stopped(capsule.instrs.as_slice())? {
            all = false;
        }
    }
    Ok((check(&code).is_ok(), all))
}

/// Both of a listing that is in two pieces.
fn is_judged(
    rt: &impl Abort,
    alloc: Global,
    front: &str,
    rest: &str,
    want: bool,
) -> Result<(), Fail> {
    let listing = format!(in alloc; "{front}{rest}")?;
    assert_eq!(rt; judged(alloc, &listing)?, (want, want), "{listing}");
    Ok(())
}

/// The lines in front of the instructions, of a procedure with four slots, and of one with one.
const FOUR_SLOTS: &str = "ppm 1\nroot 0\nproc 0 slots 4 entry 0\ncapsule 0 proc 0\n";

const ONE_SLOT: &str = "ppm 1\nroot 0\nproc 0 slots 1 entry 0\ncapsule 0 proc 0\n";

/// What follows the first of these: five listings of this table's own, then those of
/// `listings.txt` of `ppm_layer_cases` that `check` accepts.
const OF_FOUR_SLOTS: [&'static str; 23] = [
    "loadslot r0 3\nbranchz r0 4\nconst r1 -1\nadd r0 r0 r1 1\nstorecur 2 r0\nnext 1\ncapsule 1 proc 0\nloadslot r0 2\nstorecur 3 r0\nend\n",
    "loadslot r1 0\nput r1 r2 r0 1\nget r0 r1 r2 1\nstorecur 1 r0\nend\n",
    "loadslot r1 0\nloadslot r2 1\nget r0 r1 r2 1\nadd r0 r0 r0 1\nstorecur 2 r0\ngive r0\nend\n",
    "room 10\nloadslot r0 3\nstorenew 6 r0\nstorenew 7 r0\ncall 0 0\n",
    "loadslot r0 2\nloadslot r1 0\nput r1 r0 r0 1\nend\n",
    "const r0 7\nstorecur 3 r0\nloadslot r1 3\nstorecur 3 r1\nend\n",
    "put r1 r2 r0 1\nget r0 r1 r2 1\nend\n",
    "give r63\nend\n",
    "storecur 3 r0\nend\n",
    "add r0 r0 r0 1\nend\n",
    "add r0 r0 r0 1048577\nend\n",
    "put r0 r0 r0 1\nend\n",
    "put r0 r0 r0 1048577\nend\n",
    "cutr r0 r0 r0 1\nend\n",
    "cutr r0 r0 r0 1048577\nend\n",
    "trap 4 1\n",
    "room 1\nend\n",
    "room 1048576\nend\n",
    "const r0 -9223372036854775808\nend\n",
    "const r0 9223372036854775807\nend\n",
    "branchnz r0 1\nend\n",
    "room 5\nstorenew 4 r0\nend\n",
    "next 0\n",
];

/// What follows the second.
const OF_ONE_SLOT: [&'static str; 5] = [
    "room 7\ncall 0 0\n",
    "give r0\nend\n",
    "room 19\nforkto 0 0 0 - 0\n",
    "room 7\ncallto 0 0 0\n",
    "room 19\nforkto 0 0 0 0 -\n",
];

/// Whole listings.
const WHOLE: [&'static str; 4] = [
    "ppm 1\nroot 0\nproc 0 slots 25 entry 0\ncapsule 0 proc 0\nend\n",
    "ppm 1\nroot 0 63\nproc 0 slots 4 entry 0\ncapsule 0 proc 0\nconst r0 7\nstorecur 3 r0\nloadslot r1 3\nstorecur 3 r1\nend\n",
    "ppm 1\nroot 0 0 0 1 2\nproc 0 slots 4 entry 0\ncapsule 0 proc 0\nconst r0 7\nstorecur 3 r0\nloadslot r1 3\nstorecur 3 r1\nend\n",
    "ppm 1\nroot 0\nproc 0 slots 4 entry 0\nproc 1 slots 1 entry 1\ncapsule 0 proc 0\nroom 22\nfork 0 1 0\ncapsule 1 proc 1\nend\n",
];

#[test]
fn accepted_capsules_may_be_stopped(rt: HostRuntime) -> Result<(), Fail> {
    for rest in OF_FOUR_SLOTS {
        is_judged(&rt, rt.alloc(), FOUR_SLOTS, rest, true)?;
    }
    for rest in OF_ONE_SLOT {
        is_judged(&rt, rt.alloc(), ONE_SLOT, rest, true)?;
    }
    for listing in WHOLE {
        is_judged(&rt, rt.alloc(), "", listing, true)?;
    }
    Ok(())
}

#[test]
fn a_capsule_of_160_instructions_may_be_stopped(rt: HostRuntime) -> Result<(), Fail> {
    let mut lines = String::new(rt.alloc());
    for _ in 0..159 {
        lines.push_str("give r0\n")?;
    }
    lines.push_str("end\n")?;
    is_judged(&rt, rt.alloc(), FOUR_SLOTS, &lines, true)
}

#[test]
fn conflicts_show_where_capsules_are_stopped(rt: HostRuntime) -> Result<(), Fail> {
    let cases = [
        "loadslot r0 3\nbranchz r0 5\nconst r1 -1\nadd r0 r0 r1 1\nstorecur 3 r0\nend\n",
        "loadslot r1 0\nget r0 r1 r2 1\nadd r0 r0 r0 1\nput r1 r2 r0 1\nend\n",
    ];
    for rest in cases {
        is_judged(&rt, rt.alloc(), FOUR_SLOTS, rest, false)?;
    }
    Ok(())
}
