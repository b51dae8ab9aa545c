//! Where a processor sleeps that has parked.
ghost use Rattle.std.specs.Prelude.{◌≡◌, ◌+◌, IfOk, vec_len};
ghost use Rattle.std.specs.Arc.{arc_value};
ghost use Rattle.crossbeam_utils.specs.Token.{parker_view};
ghost use Rattle.ppm_threads.specs.Tokens.{Balanced, credit, gave, took};

use crossbeam_utils::rule::{Outcome, Protocol};
use crossbeam_utils::sync::parker::{Pass, RuledParker, RuledUnparker};
use ppm_words::NoMemory;
use std::alloc::Global;
use std::sync::Wait;

/// How many tokens a pass has given, and how many it has taken. No value of it is made.
pub struct Credit {
    pub given: u64,
    pub taken: u64,
}

/// The rule: no more tokens are taken than given.
pub struct Tokens;

impl Protocol<bool, Credit> for Tokens {
    ghost holds = { Balanced };

    ghost first = { credit 0 0 };
}

/// A token is given.
pub struct Gave;

impl Outcome<bool, Credit> for Gave {
    ghost then = { gave };
}

/// A token is taken.
pub struct Took;

impl Outcome<bool, Credit> for Took {
    ghost then = { took };
}

/// On which a processor parks.
pub type IdleParker = RuledParker<Credit, Tokens>;

/// By which others wake it.
pub type IdleUnparker = RuledUnparker<Credit, Tokens>;

/// What one of them knows of the tokens.
pub type IdlePass = Pass<Credit>;

/// Sleeps until there is a token, and takes it. The pass is one of this parker. It may never return,
/// and takes no memory.
pub fn sleep<R: Wait>(rt: &R, parker: &IdleParker, mut pass: IdlePass) -> IdlePass
    requires { pass.table_id ≡ (arc_value parker.now.unparker.state).shared.table_id }
    ensures same { result.table_id ≡ pass.table_id }
    ensures taken { parker_view result
        ≡ credit (parker_view pass).given ((parker_view pass).taken + 1) }
{
    parker.park_as::<Took, R>(rt, &mut pass);
    pass
}

/// Parks with a pass of its own.
pub(crate) fn park<R: Wait>(rt: &R, parker: &IdleParker) {
    let pass = parker.unparker().pass();
    sleep(rt, parker, pass);
}

/// Gives a parker a token.
fn wake(unparker: &IdleUnparker) {
    let mut pass = unparker.pass();
    unparker.unpark_as::<Gave>(&mut pass);
}

/// Gives each parker a token.
pub(crate) fn wake_all(unparkers: &[IdleUnparker]) {
    for unparker in unparkers {
        wake(unparker);
    }
}

/// A parker with no token.
fn parker(alloc: Global) -> Result<IdleParker, NoMemory> {
    let (parker, _) = RuledParker::ruled(alloc)?;
    Ok(parker)
}

/// Parkers, of the given number.
pub(crate) fn parkers(alloc: Global, count: usize) -> Result<Vec<IdleParker>, NoMemory>
    ensures { IfOk result (λ all. vec_len all ≡ count) }
{
    let mut all = Vec::new(alloc);
    for _ in 0..count {
        all.push(parker(alloc)?)?;
    }
    Ok(all)
}

/// An unparker for each of these.
pub(crate) fn unparkers(
    alloc: Global,
    parkers: &[IdleParker],
) -> Result<Vec<IdleUnparker>, NoMemory> {
    let mut all = Vec::new(alloc);
    for parker in parkers {
        all.push(parker.unparker().clone()?)?;
    }
    Ok(all)
}
