//! The check of a whole code whose strands may race and exchange array words.
ghost use Rattle.std.specs.Prelude.{IfOk, MatchOption};
ghost use Rattle.ppm_filled.specs.Correct.{HasFilledPaths};
ghost use Rattle.ppm_gaps.specs.Flaws.{IsFirstFlaw};
ghost use Rattle.ppm_gaps.specs.declared.racing.Flaw.TheVariants.{Conflict as OfConflict, Gap as OfGap};
ghost use Rattle.ppm_racy.specs.Code.{plain_code as code_with_puts};
ghost use Rattle.ppm_racy_gaps.specs.Correct.{HasNoFlaw, IsRestartable};
ghost use Rattle.ppm_racy_gaps.specs.Flaws.{IsFirstRacyFlaw};
ghost use Rattle.ppm_racy_gaps.specs.Repeats.{AreWithoutRepeats, IsFirstRepeatOf};

use crate::laws::racy_codes_without_flaws_are_restartable;
use crate::repeats::first_repeat;
use ppm_gaps::{CapsuleGap, Flaw, check_racing};
use ppm_racy::{RacyCode, plain_code};
use ppm_war::Conflict;
use ppm_words::NoMemory;
use std::alloc::Global;

/// The first of two conflicts: with puts in place of exchanges, and after an exchange.
fn first_conflict(code: &RacyCode, conflict: Conflict, repeat: Conflict) -> Flaw
    requires with_puts { IsFirstFlaw (code_with_puts code.now) (OfConflict conflict) }
    requires after { IsFirstRepeatOf code.now repeat }
    ensures { IsFirstRacyFlaw code.now result }
{
    if repeat.capsule < conflict.capsule {
        return Flaw::Conflict(repeat);
    }
    if conflict.capsule < repeat.capsule {
        return Flaw::Conflict(conflict);
    }
    if repeat.read_at < conflict.read_at {
        Flaw::Conflict(repeat)
    } else {
        Flaw::Conflict(conflict)
    }
}

/// The first of a gap and of a conflict after an exchange.
fn first_beside(code: &RacyCode, gap: CapsuleGap, repeat: Conflict) -> Flaw
    requires with_puts { IsFirstFlaw (code_with_puts code.now) (OfGap gap) }
    requires after { IsFirstRepeatOf code.now repeat }
    ensures { IsFirstRacyFlaw code.now result }
{
    if gap.capsule < repeat.capsule {
        Flaw::Gap(gap)
    } else {
        Flaw::Conflict(repeat)
    }
}

/// The first flaw of a code that has this one with puts in place of its exchanges.
fn flaw_from(code: &RacyCode, flaw: Flaw, repeat: Option<Conflict>) -> Flaw
    requires with_puts { IsFirstFlaw (code_with_puts code.now) flaw }
    requires after { MatchOption repeat (AreWithoutRepeats code.now) (IsFirstRepeatOf code.now) }
    ensures { IsFirstRacyFlaw code.now result }
{
    match repeat {
        Some(repeat) => match flaw {
            Flaw::Conflict(conflict) => first_conflict(code, conflict, repeat),
            Flaw::Gap(gap) => first_beside(code, gap, repeat),
        },
        None => flaw,
    }
}

/// The first flaw of a code that has none with puts in place of its exchanges.
fn flaw_without(code: &RacyCode, repeat: Option<Conflict>) -> Option<Flaw>
    requires with_puts { HasFilledPaths (code_with_puts code.now) }
    requires after { MatchOption repeat (AreWithoutRepeats code.now) (IsFirstRepeatOf code.now) }
    ensures { MatchOption result (HasNoFlaw code.now) (IsFirstRacyFlaw code.now) }
{
    match repeat {
        Some(repeat) => Some(Flaw::Conflict(repeat)),
        None => None,
    }
}

/// The first flaw of a code whose strands may race and exchange array words: of the least capsule
/// that has a conflict or a gap, a conflict before a gap; an exchange is a read and a write at one
/// place. `None` comes exactly where the code has none. `Err` only where memory is refused.
pub fn first_flaw(alloc: Global, code: &RacyCode) -> Result<Option<Flaw>, NoMemory>
    ensures { IfOk result (λ found. MatchOption found (IsRestartable code.now) (IsFirstRacyFlaw code.now)) }
{
    // What has no flaw rests on this law; the call does nothing.
    racy_codes_without_flaws_are_restartable();
    let plain = plain_code(alloc, code)?;
    let repeat = first_repeat(code, &plain);
    match check_racing(&plain) {
        Ok(()) => Ok(flaw_without(code, repeat)),
        Err(flaw) => Ok(Some(flaw_from(code, flaw, repeat))),
    }
}
