//! The code that ends and capsules are tried with.
ghost use Rattle.std.specs.Prelude.{◌≡◌, IfOk, None, [], ◌∷◌};
ghost use Rattle.ppm_code.specs.declared.act.End.TheVariants.{Call, Fork};
ghost use Rattle.ppm_code.specs.declared.instr.Instr.TheVariants.{Ends, Room};

use ppm_code::{Capsule, Code, CodeParts, End, Instr, Procedure};
use ppm_words::{Items, Trap};
use std::alloc::Global;
use std::test::Fail;

/// A capsule of one instruction, an end.
fn ending(alloc: Global, end: End) -> Result<Capsule, Fail>
    ensures { IfOk result (λ capsule. capsule ≡ record { procedure = 0; instrs = Ends end ∷ [] }) }
{
    Ok(Capsule {
        procedure: 0,
        instrs: Items::from_vec(vec![in alloc; Instr::Ends(end)]?),
    })
}

/// A capsule that asks for words, and its end.
fn building(alloc: Global, words: u32, end: End) -> Result<Capsule, Fail>
    ensures { IfOk result (λ capsule. capsule
        ≡ record { procedure = 0; instrs = Room words ∷ Ends end ∷ [] }) }
{
    Ok(Capsule {
        procedure: 0,
        instrs: Items::from_vec(vec![in alloc; Instr::Room { words }, Instr::Ends(end)]?),
    })
}

/// A code of one procedure, with a capsule for each end but that which goes on with another
/// capsule.
pub(crate) fn small_code(alloc: Global) -> Result<Code, Fail> {
    let over = ending(alloc, End::Finish)?;
    let call = building(alloc, 7, calling(None))?;
    let call_to = building(alloc, 7, calling(Some(0)))?;
    let fork = building(alloc, 19, forking(None))?;
    let fork_to = building(alloc, 19, forking(Some(0)))?;
    let trap = ending(
        alloc,
        End::Trap {
            trap: Trap::DivZero,
            line: 3,
        },
    )?;
    let capsules = vec![in alloc; over, call, call_to, fork, fork_to, trap]?;
    let arrays = Vec::new(alloc);
    let procedures = vec![in alloc; Procedure { slots: 1, entry: 5 }]?;
    Ok(Code::from_parts(CodeParts {
        root: 0,
        arrays: Items::from_vec(arrays),
        procedures: Items::from_vec(procedures),
        capsules: Items::from_vec(capsules),
    }))
}

/// A call of the procedure, after which capsule 3 comes.
fn calling(to: Option<u32>) -> End
    ensures { result ≡ Call 0 3 to }
{
    End::Call {
        procedure: 0,
        capsule: 3,
        to,
    }
}

/// A fork of the procedure and itself, after which capsule 3 comes; the left value goes to a slot,
/// if one is named.
fn forking(left_to: Option<u32>) -> End
    ensures { result ≡ Fork 0 0 3 left_to None }
{
    End::Fork {
        left: 0,
        right: 0,
        capsule: 3,
        left_to,
        right_to: None,
    }
}
