//! The command `code`, as its words give it.
ghost use Rattle.std.specs.Prelude.{◌≡◌, IfSome};
ghost use Rattle.clap.specs.Words.{found_of, rows_of};
ghost use Rattle.ppm_cli.specs.Words.{IsInRange, code_in};

use crate::command::Command;
use crate::getters::choice_of;
use crate::table::ARRAYS;
use clap::ArgMatches;

/// The command with the option in its matches: with `--arrays yes` it writes a case.
pub(crate) fn code_from(matches: &ArgMatches<'_>) -> Option<Command>
    ensures value { result ≡ code_in (rows_of (found_of matches.now)) }
    ensures in_range { IfSome result IsInRange }
{
    let arrays = choice_of(matches, ARRAYS, &[false, true])?;
    if arrays {
        Some(Command::CodeCase)
    } else {
        Some(Command::Code)
    }
}
