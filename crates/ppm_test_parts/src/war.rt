//! Worked capsules, with their first conflict.
ghost use Rattle.std.specs.Prelude.{◌<◌};

use ppm_code::{Capsule, Class, Code, CodeParts, End, Instr, Procedure, Register};
use ppm_war::{Found, UntidyStore, accepted_code_runs_again, check, conflict_in, tidy, untidy};
use ppm_words::Items;
use std::alloc::Global;
use std::test::Fail;

fn register(index: u8) -> Result<Register, Fail> {
    Ok(Register::new(index).ok_or("a register")?)
}

#[test]
fn the_first_conflict_is_found(rt: HostRuntime) -> Result<(), Fail> {
    let to = register(0)?;
    let region = register(1)?;
    let index = register(2)?;
    let line = 1;
    let end = Instr::Ends(End::Finish);
    let load = Instr::LoadSlot { to, slot: 3 };
    let store = Instr::StoreCur { slot: 3, from: to };
    let get = Instr::Get {
        to,
        region,
        index,
        line,
    };
    let put = Instr::Put {
        region,
        index,
        from: to,
        line,
    };
    let branch = Instr::BranchZero {
        tested: to,
        target: 3,
    };
    let found = |read_at, write_at, class| Some(Found {
        read_at,
        write_at,
        class,
    });
    let cases = [
        ([load, branch, store, end, end], found(0, 2, Class::Slot(3))),
        ([store, load, store, end, end], None),
        ([get, put, end, end, end], found(0, 1, Class::Array)),
        ([put, get, end, end, end], None),
        ([put, get, put, end, end], found(1, 2, Class::Array)),
        ([branch, store, end, load, end], None),
        (
            [branch, store, load, load, store],
            found(3, 4, Class::Slot(3)),
        ),
        ([load, branch, end, store, end], found(0, 3, Class::Slot(3))),
        ([load, end, store, end, end], None),
        ([branch, load, end, store, end], None),
        ([load, get, put, store, end], found(0, 3, Class::Slot(3))),
        ([get, load, store, put, end], found(0, 3, Class::Array)),
    ];
    for (instrs, want) in cases {
        assert_eq!(rt; conflict_in(&instrs), want, "of {instrs:?}");
    }
    accepted_code_runs_again();
    Ok(())
}

/// A code of one capsule, which stores into the frame of its own procedure and calls that.
fn calling(alloc: Global, from: Register, offset: u32) -> Result<Code, Fail>
    requires { offset < 7 }
{
    let call = End::Call {
        procedure: 0,
        capsule: 0,
        to: None,
    };
    let instrs = vec![in alloc;
        Instr::Room { words: 7 },
        Instr::StoreNew { offset, from },
        Instr::Ends(call),
    ]?;
    let capsule = Capsule {
        procedure: 0,
        instrs: Items::from_vec(instrs),
    };
    let procedure = Procedure { slots: 1, entry: 0 };
    Ok(Code::from_parts(CodeParts {
        root: 0,
        arrays: Items::from_vec(Vec::new(alloc)),
        procedures: Items::from_vec(vec![in alloc; procedure]?),
        capsules: Items::from_vec(vec![in alloc; capsule]?),
    }))
}

#[test]
fn a_slot_alone_is_tidy(rt: HostRuntime) -> Result<(), Fail> {
    let alloc = rt.alloc();
    let from = register(0)?;
    let code = calling(alloc, from, 6)?;
    assert!(rt; check(&code).is_ok());
    assert_eq!(rt; untidy(&code), None);
    assert!(rt; tidy(&code));
    let code = calling(alloc, from, 5)?;
    assert!(rt; check(&code).is_ok());
    assert_eq!(rt; untidy(&code), Some(UntidyStore { capsule: 0, at: 1 }));
    assert!(rt; !tidy(&code));
    Ok(())
}
