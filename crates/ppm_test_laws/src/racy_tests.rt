//! A compare-and-modify, and register work up to it.
use ppm_code::{Act, End, Instr, Location, Register, Step};
use ppm_racy::{RacyAct, RacyInstr, Stop, Touch, reach};
use ppm_words::Trap;
use std::test::Fail;

fn register(index: u8) -> Result<Register, Fail> {
    Ok(Register::new(index).ok_or("a register")?)
}

/// Exchanges the element of register 2 in the region of register 1 from register 3 to register 4.
fn exchange() -> Result<RacyInstr, Fail> {
    Ok(RacyInstr::Cam {
        region: register(1)?,
        index: register(2)?,
        old: register(3)?,
        new: register(4)?,
        line: 7,
    })
}

/// The region of two words from word 5 on, an index of it, and 8 and 9 to be exchanged.
fn registers(index: u64) -> [u64; 64] {
    let mut registers = [0; 64];
    registers[1] = 21_474_836_482;
    registers[2] = index;
    registers[3] = 8;
    registers[4] = 9;
    registers
}

#[test]
fn an_exchange_names_its_word(rt: HostRuntime) -> Result<(), Fail> {
    let cam = exchange()?;
    let held = registers(1);
    let want = RacyAct::Exchanges {
        word: 6,
        old: 8,
        new: 9,
    };
    assert_eq!(rt; cam.act(&held, 7), want);
    Ok(())
}

#[test]
fn an_exchange_past_its_region_traps(rt: HostRuntime) -> Result<(), Fail> {
    let cam = exchange()?;
    let held = registers(2);
    let want = RacyAct::Plain(Act::Ends(End::Trap {
        trap: Trap::Index,
        line: 7,
    }));
    assert_eq!(rt; cam.act(&held, 9), want);
    Ok(())
}

#[test]
fn with_a_put_in_its_place_it_stores(rt: HostRuntime) -> Result<(), Fail> {
    let put = exchange()?.plain();
    let held = registers(0);
    let want = Act::Steps(Step::Stores(Location::Array(5), 9));
    assert_eq!(rt; put.act(&held, 7), want);
    Ok(())
}

#[test]
fn register_work_passes_room_and_comes_to_an_exchange(rt: HostRuntime) -> Result<(), Fail> {
    let room = RacyInstr::Plain(Instr::Room { words: 3 });
    let set = RacyInstr::Plain(Instr::Const {
        to: register(2)?,
        value: 0,
    });
    let instrs = [room, set, exchange()?];
    let mut held = registers(1);
    let want = Stop {
        next: 3,
        touch: Touch::Exchanges {
            word: 5,
            old: 8,
            new: 9,
        },
    };
    assert_eq!(rt; reach(&instrs, 7, 0, &mut held), want);
    Ok(())
}
