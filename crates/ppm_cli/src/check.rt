//! The command `check`, as its words give it.
ghost use Rattle.std.specs.Prelude.{◌≡◌, IfSome};
ghost use Rattle.clap.specs.Words.{found_of, rows_of};
ghost use Rattle.ppm_cli.specs.Words.{IsInRange, check_in};

use crate::command::Command;
use crate::getters::choice_of;
use crate::table::RACY;
use clap::ArgMatches;

/// The command with the option in its matches: with `--racy yes` strands of the code may race.
pub(crate) fn check_from(matches: &ArgMatches<'_>) -> Option<Command>
    ensures value { result ≡ check_in (rows_of (found_of matches.now)) }
    ensures in_range { IfSome result IsInRange }
{
    let racy = choice_of(matches, RACY, &[false, true])?;
    if racy {
        Some(Command::CheckRacing)
    } else {
        Some(Command::Check)
    }
}
