//! The first store of a code that is not tidy.
ghost use Rattle.std.specs.Prelude.{◌≡◌, ◌<◌, ◌≤◌, ◌↔◌, IsTrue, MatchOption, length};
ghost use Rattle.ppm_code.specs.Limits.{instr_limit};
ghost use Rattle.ppm_code.specs.Tidy.{IsTidy, IsTidyCapsule};
ghost use Rattle.ppm_war.specs.Stores.{IsTidyIn};
ghost use Rattle.ppm_war.specs.Untidy.{IsFirstUntidy, IsFirstUntidyIn, IsFirstUntidyOf};

use crate::tidiness::is_tidy_at;
use ppm_code::{Code, Instr};

/// A store into a new block that is not tidy: its capsule, and its place there. Both count from 0.
#[derive(Clone, Copy, Debug, PartialEq, Eq)]
pub struct UntidyStore {
    pub capsule: u32,
    pub at: u32,
}

/// The place of the first untidy store of a capsule.
fn first_untidy(code: &Code, instrs: &[Instr]) -> Option<u32>
    requires { length instrs.now ≤ instr_limit }
    ensures { MatchOption result (IsTidyCapsule code.now instrs.now) (IsFirstUntidy code.now instrs.now) }
{
    let mut at = 0;
    while at < instrs.len() {
        if !is_tidy_at(code, instrs, at) {
            return Some(at as u32);
        }
        at += 1;
    }
    None
}

/// The first untidy store of the capsule with a number.
fn untidy_in(code: &Code, number: usize) -> Option<UntidyStore>
    requires { number < length code.now.capsules }
    ensures { MatchOption result (IsTidyIn code.now number) (IsFirstUntidyIn code.now number) }
{
    let parts = code.parts();
    let capsule = &parts.capsules.as_slice()[number];
    match first_untidy(code, capsule.instrs.as_slice()) {
        Some(at) => Some(UntidyStore {
            capsule: number as u32,
            at,
        }),
        None => None,
    }
}

/// The first store of a code into a new block that is not tidy: of the least capsule that has one,
/// the first there. `None` comes exactly where the code is tidy. No memory is taken.
pub fn untidy(code: &Code) -> Option<UntidyStore>
    ensures { MatchOption result (IsTidy code.now) (IsFirstUntidyOf code.now) }
{
    let count = code.parts().capsules.as_slice().len();
    let mut number = 0;
    while number < count {
        if let Some(store) = untidy_in(code, number) {
            return Some(store);
        }
        number += 1;
    }
    None
}

/// Whether a code is tidy: what a capsule stores into a new block is a slot of a frame that its end
/// builds, and nothing can trap between the store and that end. No memory is taken.
pub fn tidy(code: &Code) -> bool
    ensures { IsTrue result ↔ IsTidy code.now }
{
    untidy(code).is_none()
}
