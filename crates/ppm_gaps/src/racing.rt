//! The check of a whole code whose strands may race.
ghost use Rattle.std.specs.Prelude.{MatchResult};
ghost use Rattle.ppm_war.specs.Conflicts.{IsFirstConflictOf};
ghost use Rattle.ppm_gaps.specs.Correct.{IsRestartable};
ghost use Rattle.ppm_gaps.specs.Flaws.{IsFirstFlaw};

use crate::gaps::{CapsuleGap, first_gap};
use crate::laws::codes_without_flaws_are_restartable;
use ppm_code::Code;
use ppm_war::{Conflict, check};

/// Why a code is refused whose strands may race.
#[derive(Clone, Copy, Debug, PartialEq, Eq)]
pub enum Flaw {
    /// A capsule has this conflict.
    Conflict(Conflict),
    /// A capsule has this gap.
    Gap(CapsuleGap),
}

/// The first flaw of a code with this first conflict.
fn flaw_beside(code: &Code, conflict: Conflict) -> Flaw
    requires { IsFirstConflictOf code.now conflict }
    ensures { IsFirstFlaw code.now result }
{
    match first_gap(code) {
        Some(gap) => {
            if gap.capsule < conflict.capsule {
                Flaw::Gap(gap)
            } else {
                Flaw::Conflict(conflict)
            }
        }
        None => Flaw::Conflict(conflict),
    }
}

/// Whether each capsule of a code is ordered and filled, as far as paths tell, so that faults are
/// invisible though strands race, where what they do stands without faults: `Ok` exactly where no
/// capsule has a conflict or a gap, else the first flaw: of the least capsule that has one, and
/// there a conflict before a gap. No memory is taken.
pub fn check_racing(code: &Code) -> Result<(), Flaw>
    ensures { MatchResult result (λ _. IsRestartable code.now) (IsFirstFlaw code.now) }
{
    // What is accepted rests on this law; the call does nothing.
    codes_without_flaws_are_restartable();
    match check(code) {
        Ok(_) => match first_gap(code) {
            Some(gap) => Err(Flaw::Gap(gap)),
            None => Ok(()),
        },
        Err(conflict) => Err(flaw_beside(code, conflict)),
    }
}
