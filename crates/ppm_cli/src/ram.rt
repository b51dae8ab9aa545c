//! The command `ram`, as its words give it.
ghost use Rattle.std.specs.Prelude.{◌≡◌, IfOk, IfSome};
ghost use Rattle.clap.specs.Words.{found_of, rows_of};
ghost use Rattle.ppm_cli.specs.Words.{IsInRange, ram_in};

use crate::command::Command;
use crate::getters::bytes_of;
use crate::run::run_options;
use crate::table::FAULTS;
use clap::ArgMatches;
use std::alloc::{AllocError, Global};

/// The command with the options and the plan in its matches; the options are those of `run`.
pub(crate) fn ram_from(
    alloc: Global,
    matches: &ArgMatches<'_>,
) -> Result<Option<Command>, AllocError>
    ensures value { IfOk result (λ c. c ≡ ram_in (rows_of (found_of matches.now))) }
    ensures in_range { IfOk result (λ c. IfSome c IsInRange) }
{
    match run_options(matches) {
        Some(options) => match bytes_of(alloc, matches, FAULTS)? {
            Some(plan) => Ok(Some(Command::Ram(options, plan))),
            None => Ok(None),
        },
        None => Ok(None),
    }
}
