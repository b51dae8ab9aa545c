//! The commands `depth` and `races`, as their words give them.
ghost use Rattle.std.specs.Prelude.{◌≡◌, IfSome};
ghost use Rattle.clap.specs.Words.{found_of, rows_of};
ghost use Rattle.ppm_cli.specs.Words.{IsInRange, IsLimit, capsule_limit, depth_in, races_in};

use crate::command::Command;
use crate::getters::number_of;
use crate::table::CAPSULES;
use clap::ArgMatches;

/// The limit of a depth-first run.
#[derive(Clone, Copy, Debug, PartialEq, Eq)]
pub struct CapsuleLimit {
    /// How many capsules the run may have: from 1 to 4294967295, and 16777216 by default.
    pub capsules: u64,
}

/// The command `depth` with the limit in its matches.
pub(crate) fn depth_from(matches: &ArgMatches<'_>) -> Option<Command>
    ensures value { result ≡ depth_in (rows_of (found_of matches.now)) }
    ensures in_range { IfSome result IsInRange }
{
    let limit = limit_of(matches)?;
    Some(Command::Depth(limit))
}

/// The command `races` with the limit in its matches.
pub(crate) fn races_from(matches: &ArgMatches<'_>) -> Option<Command>
    ensures value { result ≡ races_in (rows_of (found_of matches.now)) }
    ensures in_range { IfSome result IsInRange }
{
    let limit = limit_of(matches)?;
    Some(Command::Races(limit))
}

/// The limit in the matches of a command.
fn limit_of(matches: &ArgMatches<'_>) -> Option<CapsuleLimit>
    ensures value { result ≡ capsule_limit (rows_of (found_of matches.now)) }
    ensures in_range { IfSome result IsLimit }
{
    let capsules = number_of(matches, CAPSULES)?;
    Some(CapsuleLimit {
        capsules: u64::from(capsules),
    })
}
