//! Whether a case is sound.
ghost use Rattle.std.specs.Prelude.{◌≤◌, ◌^◌, MatchResult};
ghost use Rattle.ppm_calls.specs.Soundness.{IsDoubt, IsSoundRun};

use ppm_case::Case;
use ppm_depth::{DepthRun, depth_first};
use ppm_races::{Race, Verdict, races};
use ppm_war::{Conflict, UntidyStore, check, untidy};
use ppm_words::NoMemory;
use std::alloc::Global;
use thiserror::Error;

/// Why a case is not known to be sound.
#[derive(Clone, Copy, Debug, PartialEq, Eq, Error)]
pub enum Doubt {
    /// A capsule has a conflict; this is the first.
    #[error("a conflict in capsule {}", .0.capsule)]
    Conflicts(Conflict),
    /// A store into a new block is not tidy; this is the first.
    #[error("an untidy store in capsule {}", .0.capsule)]
    Untidy(UntidyStore),
    /// Two branches of a fork meet on an array word that one of them writes; this is the first race
    /// of the depth-first run.
    #[error("a race on array word {}", .0.word)]
    Races(Race),
    /// The depth-first run takes more capsules.
    #[error("more capsules")]
    NotWithin,
    /// Memory was refused.
    #[error("out of memory")]
    NoMemory,
}

impl From<NoMemory> for Doubt {
    ghost use Rattle.std.specs.Prelude.{◌≡◌};
    ghost use Rattle.ppm_calls.specs.declared.soundness.Doubt.TheVariants as doubts;

    ghost from_gives = { λ _ doubt. doubt ≡ doubts.NoMemory };

    fn from(_: NoMemory) -> Self {
        Doubt::NoMemory
    }
}

/// The depth-first run of a case that is sound, if this run takes at most so many capsules. Each run
/// of a sound case that comes to a result comes to the result of this one.
pub fn sound_run(alloc: Global, case: &Case, capsules: u64) -> Result<DepthRun, Doubt>
    requires few { capsules ≤ 2 ^ 40 }
    ensures { MatchResult result (IsSoundRun case.now.code case.now.input capsules)
        (IsDoubt case.now.code case.now.input capsules) }
{
    if let Err(conflict) = check(&case.code) {
        return Err(Doubt::Conflicts(conflict));
    }
    if let Some(store) = untidy(&case.code) {
        return Err(Doubt::Untidy(store));
    }
    // Both calls ask for a code that is tidy, as this one now is known to be.
    let run = depth_first(alloc, &case.code, &case.input, capsules)?;
    match races(alloc, &case.code, &case.input, capsules)? {
        Verdict::Calm(_) => Ok(run),
        Verdict::Races(race) => Err(Doubt::Races(race)),
        Verdict::NotWithin => Err(Doubt::NotWithin),
    }
}
