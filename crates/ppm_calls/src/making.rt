//! A code that is made in memory, with its input.
ghost use Rattle.std.specs.Prelude.{◌≡◌, IfOk};
ghost use Rattle.ppm_cut_code.specs.Layout.{register as register_of};
ghost use Rattle.ppm_calls.specs.Counter.{add_instrs, counter_code, counter_input, read_instrs};

use ppm_case::Case;
use ppm_code::{Capsule, Code, CodeParts, End, Instr, Procedure, Register};
use ppm_words::{Input, Items, Name, NamedArray, NoMemory};
use std::alloc::Global;

/// A code that adds 1 to the first value of its array, with an array that has this value alone. One
/// capsule reads the value and stores it into a slot of its frame; the other one adds 1 and writes
/// it back. So each may be stopped and begun again.
pub fn counter(alloc: Global, value: i64) -> Result<Case, NoMemory>
    ensures code { IfOk result (λ case. case.code ≡ counter_code) }
    ensures input { IfOk result (λ case. case.input ≡ counter_input value) }
{
    let reading = reading(alloc)?;
    let adding = adding(alloc)?;
    let procedure = Procedure { slots: 2, entry: 0 };
    let code = Code::from_parts(CodeParts {
        root: 0,
        arrays: Items::from_vec(vec![in alloc; 0]?),
        procedures: Items::from_vec(vec![in alloc; procedure]?),
        capsules: Items::from_vec(vec![in alloc; reading, adding]?),
    });
    let array = NamedArray {
        name: Name::from_bytes(vec![in alloc; b'c']?),
        values: Items::from_vec(vec![in alloc; value]?),
    };
    let input = Input::from_vec(vec![in alloc; array]?);
    Ok(Case { code, input })
}

/// The capsule that reads.
fn reading(alloc: Global) -> Result<Capsule, NoMemory>
    ensures { IfOk result (λ capsule. capsule ≡ record { procedure = 0; instrs = read_instrs }) }
{
    let region = register(0);
    let index = register(1);
    let word = register(2);
    let instrs = vec![in alloc;
        Instr::LoadSlot {
            to: region,
            slot: 0
        },
        Instr::Const {
            to: index,
            value: 0
        },
        Instr::Get {
            to: word,
            region,
            index,
            line: 1
        },
        Instr::StoreCur {
            slot: 1,
            from: word
        },
        Instr::Ends(End::Next { capsule: 1 }),
    ]?;
    Ok(Capsule {
        procedure: 0,
        instrs: Items::from_vec(instrs),
    })
}

/// The capsule that adds and writes.
fn adding(alloc: Global) -> Result<Capsule, NoMemory>
    ensures { IfOk result (λ capsule. capsule ≡ record { procedure = 0; instrs = add_instrs }) }
{
    let region = register(0);
    let index = register(1);
    let word = register(2);
    let one = register(3);
    let instrs = vec![in alloc;
        Instr::LoadSlot {
            to: region,
            slot: 0
        },
        Instr::Const {
            to: index,
            value: 0
        },
        Instr::LoadSlot { to: word, slot: 1 },
        Instr::Const { to: one, value: 1 },
        Instr::Add {
            to: word,
            left: word,
            right: one,
            line: 2
        },
        Instr::Put {
            region,
            index,
            from: word,
            line: 2
        },
        Instr::Ends(End::Finish),
    ]?;
    Ok(Capsule {
        procedure: 0,
        instrs: Items::from_vec(instrs),
    })
}

/// The register with a number, or the last one.
fn register(number: u8) -> Register
    ensures { result ≡ register_of number }
{
    if number < 64 {
        Register { index: number }
    } else {
        Register { index: 63 }
    }
}
