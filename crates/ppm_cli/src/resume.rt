//! The command `resume`, as its words give it.
ghost use Rattle.std.specs.Prelude.{◌≡◌, IfOk, IfSome};
ghost use Rattle.clap.specs.Words.{found_of, rows_of};
ghost use Rattle.ppm_cli.specs.Words.{AreResumed, IsInRange, resume_in, resume_with};
ghost use Rattle.ppm_cli.specs.Words.{resume_options as options_in};

use crate::command::Command;
use crate::counts::are_counted;
use crate::getters::{bytes_of, number_of};
use crate::table::{FAULTS, LOOKS, SEED, TURNS};
use clap::ArgMatches;
use ppm_words::Items;
use std::alloc::{AllocError, Global};

/// The options of `resume` but for its plan of faults.
#[derive(Clone, Copy, Debug, PartialEq, Eq)]
pub struct ResumeOptions {
    /// How many work turns each processor may make: from 1 to 268435456, and 16777216 by default.
    pub turns: u64,
    /// How many looks for work in a row a processor makes before it leaves: from 1 to 1048576, and
    /// 1000 by default.
    pub looks: u32,
    /// Where the random victims begin: from 0 to 4294967295, and 1 by default.
    pub seed: u32,
}

/// The command with the options and the plan in its matches.
pub(crate) fn resume_from(
    alloc: Global,
    matches: &ArgMatches<'_>,
) -> Result<Option<Command>, AllocError>
    ensures value { IfOk result (λ c. c ≡ resume_in (rows_of (found_of matches.now))) }
    ensures in_range { IfOk result (λ c. IfSome c IsInRange) }
{
    match resume_options(matches) {
        Some(options) => match bytes_of(alloc, matches, FAULTS)? {
            Some(plan) => Ok(resume_of(matches, options, plan)),
            None => Ok(None),
        },
        None => Ok(None),
    }
}

/// The command with these options and this plan: with counts or without them, as the matches say.
fn resume_of(matches: &ArgMatches<'_>, options: ResumeOptions, plan: Items<u8>) -> Option<Command>
    requires { AreResumed options }
    ensures value { result ≡ resume_with options plan (rows_of (found_of matches.now)) }
    ensures in_range { IfSome result IsInRange }
{
    let counted = are_counted(matches)?;
    if counted {
        Some(Command::CountedResume(options, plan))
    } else {
        Some(Command::Resume(options, plan))
    }
}

/// The options of `resume` in its matches.
fn resume_options(matches: &ArgMatches<'_>) -> Option<ResumeOptions>
    ensures value { result ≡ options_in (rows_of (found_of matches.now)) }
    ensures in_range { IfSome result AreResumed }
{
    let turns = number_of(matches, TURNS)?;
    let looks = number_of(matches, LOOKS)?;
    let seed = number_of(matches, SEED)?;
    Some(ResumeOptions {
        turns: u64::from(turns),
        looks,
        seed,
    })
}
