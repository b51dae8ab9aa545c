//! The check of a whole code.
ghost use Rattle.std.specs.Prelude.{◌≡◌, ◌<◌, length, MatchOption, MatchResult};
ghost use Rattle.ppm_war.specs.Conflicts.{HasNoConflictIn, IsFirstConflictIn, IsFree};
ghost use Rattle.ppm_war.specs.Conflicts.{IsFirstConflictOf};

use crate::conflict::conflict_in;
use ppm_code::{Class, Code};

/// The first conflict of a code: the least capsule that has one, then the least read, then the
/// least write. All count from 0.
#[derive(Clone, Copy, Debug, PartialEq, Eq)]
pub struct Conflict {
    pub capsule: u32,
    pub read_at: u32,
    pub write_at: u32,
    pub class: Class,
}

/// A code that was checked: no capsule of it has a conflict on any path.
#[derive(Clone, Copy)]
pub struct Checked<'a> {
    pub code: &'a Code,
    ghost free: { IsFree code.now },
}

/// The first conflict of the capsule with a number.
fn conflict_of(code: &Code, number: usize) -> Option<Conflict>
    requires { number < length code.now.capsules }
    ensures { MatchOption result (HasNoConflictIn code.now number) (IsFirstConflictIn code.now number) }
{
    let parts = code.parts();
    let capsule = &parts.capsules.as_slice()[number];
    match conflict_in(capsule.instrs.as_slice()) {
        Some(found) => Some(Conflict {
            capsule: number as u32,
            read_at: found.read_at,
            write_at: found.write_at,
            class: found.class,
        }),
        None => None,
    }
}

/// Whether each capsule of a code may be stopped anywhere and begun again: `Ok` exactly where none
/// has a conflict on any path, else the first conflict. No memory is taken.
pub fn check(code: &Code) -> Result<Checked<'_>, Conflict>
    ensures { MatchResult result
        (λ checked. (checked.code.now ≡ code.now) × IsFree code.now)
        (IsFirstConflictOf code.now) }
{
    let count = code.parts().capsules.as_slice().len();
    let mut number = 0;
    while number < count {
        if let Some(conflict) = conflict_of(code, number) {
            return Err(conflict);
        }
        number += 1;
    }
    Ok(Checked { code })
}
