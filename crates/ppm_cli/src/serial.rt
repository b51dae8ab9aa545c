//! The command `serial`, as its words give it.
ghost use Rattle.std.specs.Prelude.{◌≡◌, IfSome};
ghost use Rattle.clap.specs.Words.{found_of, rows_of};
ghost use Rattle.ppm_cli.specs.Words.{IsInRange, serial_in};

use crate::command::Command;
use crate::getters::number_of;
use crate::table::TURNS;
use clap::ArgMatches;

/// The options of `serial`.
#[derive(Clone, Copy, Debug, PartialEq, Eq)]
pub struct SerialOptions {
    /// How many turns the run may spend: from 1 to 268435456, and 16777216 by default.
    pub turns: u64,
}

/// The command with the options in its matches.
pub(crate) fn serial_from(matches: &ArgMatches<'_>) -> Option<Command>
    ensures value { result ≡ serial_in (rows_of (found_of matches.now)) }
    ensures in_range { IfSome result IsInRange }
{
    let turns = number_of(matches, TURNS)?;
    Some(Command::Serial(SerialOptions {
        turns: u64::from(turns),
    }))
}
