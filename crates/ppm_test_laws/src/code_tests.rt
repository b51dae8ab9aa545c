//! Worked instructions, each with what it does, and register work of one capsule.
use ppm_code::{
    Act, End, FrameWord, Instr, Location, Reached, Register, Step, Stop, acts_follow,
    capsules_may_begin_again, no_conflict_on_paths, reach,
};
use ppm_words::Trap;
use std::test::Fail;

fn register(index: u8) -> Result<Register, Fail> {
    Ok(Register::new(index).ok_or("a register")?)
}

/// The word of a region: its start, and its length.
fn region(start: u64, length: u64) -> u64 {
    start.wrapping_mul(1 << 32).wrapping_add(length)
}

#[test]
fn instructions_do_what_they_say(rt: HostRuntime) -> Result<(), Fail> {
    let to = register(0)?;
    let left = register(1)?;
    let right = register(2)?;
    let line = 7;
    let trap = |trap| Act::Ends(End::Trap { trap, line });
    let add = Instr::Add {
        to,
        left,
        right,
        line,
    };
    let div = Instr::Div {
        to,
        left,
        right,
        line,
    };
    let rem = Instr::Rem {
        to,
        left,
        right,
        line,
    };
    let less = Instr::Less { to, left, right };
    let get = Instr::Get {
        to,
        region: left,
        index: right,
        line,
    };
    let cut_left = Instr::CutLeft {
        to,
        region: left,
        at: right,
        line,
    };
    let cut_right = Instr::CutRight {
        to,
        region: left,
        at: right,
        line,
    };
    let minus_one = 18446744073709551615;
    let minus_seven = 18446744073709551609;
    let least = 9223372036854775808;
    let part = region(3, 2);
    let element = Act::Steps(Step::Loads(Location::Array(4), to));
    let cases = [
        (add, 2, 3, Act::Sets(to, 5)),
        (add, least - 1, 1, trap(Trap::Overflow)),
        (div, minus_seven, 2, Act::Sets(to, 18446744073709551613)),
        (rem, minus_seven, 2, Act::Sets(to, minus_one)),
        (div, 1, 0, trap(Trap::DivZero)),
        (div, least, minus_one, trap(Trap::Overflow)),
        (less, minus_one, 0, Act::Sets(to, 1)),
        (less, 0, minus_one, Act::Sets(to, 0)),
        (get, part, 1, element),
        (get, part, 2, trap(Trap::Index)),
        (get, part, minus_one, trap(Trap::Index)),
        (get, region(4, 2), 1, trap(Trap::Index)),
        (cut_left, part, 2, Act::Sets(to, region(3, 2))),
        (cut_left, part, 3, trap(Trap::Split)),
        (cut_right, part, 2, Act::Sets(to, region(5, 0))),
        (cut_right, region(4294967295, 1), 1, trap(Trap::Split)),
    ];
    for (instr, first, second, want) in cases {
        let mut registers = [0; 64];
        registers[1] = first;
        registers[2] = second;
        assert_eq!(rt; instr.act(&registers, 5), want, "from {first} and {second}");
    }
    Ok(())
}

#[test]
fn register_work_goes_to_the_next_step(rt: HostRuntime) -> Result<(), Fail> {
    let first = register(0)?;
    let slot = Location::Frame(FrameWord::Slot(3));
    let instrs = [
        Instr::LoadSlot { to: first, slot: 3 },
        Instr::BranchZero {
            tested: first,
            target: 3,
        },
        Instr::StoreCur {
            slot: 3,
            from: first,
        },
        Instr::Ends(End::Finish),
    ];
    let cases = [
        (
            0,
            0,
            Stop {
                next: 1,
                what: Reached::Before(Step::Loads(slot, first)),
            },
        ),
        (
            1,
            0,
            Stop {
                next: 4,
                what: Reached::AtEnd(End::Finish),
            },
        ),
        (
            1,
            9,
            Stop {
                next: 3,
                what: Reached::Before(Step::Stores(slot, 9)),
            },
        ),
    ];
    for (from, word, want) in cases {
        let mut registers = [0; 64];
        registers[0] = word;
        assert_eq!(rt;
            reach(&instrs, 0, from, &mut registers),
            want,
            "from {from} with {word}"
        );
    }
    acts_follow();
    no_conflict_on_paths();
    capsules_may_begin_again();
    Ok(())
}
