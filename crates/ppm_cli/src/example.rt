//! The command `self`, as its words give it: the program runs an example of its own.
ghost use Rattle.std.specs.Prelude.{◌≡◌, IfSome};
ghost use Rattle.clap.specs.Words.{found_of, rows_of};
ghost use Rattle.ppm_cli.specs.Words.{AreSelf, IsInRange, self_in};
ghost use Rattle.ppm_cli.specs.Words.{self_options as options_in};

use crate::command::Command;
use crate::getters::number_of;
use crate::table::{COUNT, FEW_PROCESSORS, SEED, SIZE};
use clap::ArgMatches;

/// The options of `self`.
#[derive(Clone, Copy, Debug, PartialEq, Eq)]
pub struct SelfOptions {
    /// How many processors there are: from 1 to 16, and 4 by default.
    pub processors: u32,
    /// How many values are made and summed: from 1 to 4096, and 64 by default.
    pub size: u32,
    /// Where the values, the random victims and the drawn faults begin: from 0 to 4294967295, and 1
    /// by default.
    pub seed: u32,
    /// How many faults are drawn: from 0 to 4096, and 0 by default.
    pub count: u32,
}

/// The command with the options in its matches.
pub(crate) fn self_from(matches: &ArgMatches<'_>) -> Option<Command>
    ensures value { result ≡ self_in (rows_of (found_of matches.now)) }
    ensures in_range { IfSome result IsInRange }
{
    let options = self_options(matches)?;
    Some(Command::Example(options))
}

/// The options of `self` in its matches.
fn self_options(matches: &ArgMatches<'_>) -> Option<SelfOptions>
    ensures value { result ≡ options_in (rows_of (found_of matches.now)) }
    ensures in_range { IfSome result AreSelf }
{
    let processors = number_of(matches, FEW_PROCESSORS)?;
    let size = number_of(matches, SIZE)?;
    let seed = number_of(matches, SEED)?;
    let count = number_of(matches, COUNT)?;
    Some(SelfOptions {
        processors,
        size,
        seed,
        count,
    })
}
