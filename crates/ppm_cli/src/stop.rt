//! The command `stop`, as its words give it.
ghost use Rattle.std.specs.Prelude.{◌≡◌, IfOk, IfSome};
ghost use Rattle.clap.specs.Words.{found_of, rows_of};
ghost use Rattle.ppm_cli.specs.declared.command.Command.TheVariants as commands;
ghost use Rattle.ppm_cli.specs.Words.{AreStopped, IsInRange, by_any_input, stop_in};
ghost use Rattle.ppm_cli.specs.Words.{stop_options as options_in, stop_saved};

use crate::command::Command;
use crate::getters::{bytes_of, number_of};
use crate::input::{InputKind, input_of};
use crate::room::saved_room_of;
use crate::table::{AFTER, FEW_SLOTS, PROCESSORS, SAVED_ROOM, SCHEDULE};
use clap::ArgMatches;
use ppm_words::Items;
use std::alloc::{AllocError, Global};

/// The options of `stop` but for its schedule.
#[derive(Clone, Copy, Debug, PartialEq, Eq)]
pub struct StopOptions {
    /// How many processors there are: from 1 to 64, and 4 by default.
    pub processors: u32,
    /// After how many acts the run is stopped, those of the schedule among them: from 0 to
    /// 268435456, and 0 by default.
    pub after: u64,
    /// How many words the pool of a place has: from 64 to 4194304, and 16384 by default. All pools
    /// together have 4194304 at most.
    pub room: u32,
    /// How many entries the deque of a place has: from 2 to 4096, and 256 by default.
    pub slots: u32,
}

/// The options of `stop` but for its schedule where it goes on from a saved text: this has the
/// sizes.
#[derive(Clone, Copy, Debug, PartialEq, Eq)]
pub struct StopSavedOptions {
    /// After how many acts the run is stopped, those of the schedule among them: from 0 to
    /// 268435456, and 0 by default.
    pub after: u64,
}

/// The command with the options and the schedule in its matches.
pub(crate) fn stop_from(
    alloc: Global,
    matches: &ArgMatches<'_>,
) -> Result<Option<Command>, AllocError>
    ensures value { IfOk result (λ c. c ≡ stop_in (rows_of (found_of matches.now))) }
    ensures in_range { IfOk result (λ c. IfSome c IsInRange) }
{
    match stop_options(matches) {
        Some(options) => match bytes_of(alloc, matches, SCHEDULE)? {
            Some(schedule) => Ok(stop_of(matches, options, schedule)),
            None => Ok(None),
        },
        None => Ok(None),
    }
}

/// The command with these options and this schedule: over a source, a case or a saved text, as the
/// matches say.
fn stop_of(matches: &ArgMatches<'_>, options: StopOptions, schedule: Items<u8>) -> Option<Command>
    requires { AreStopped options }
    ensures value { result
        ≡ by_any_input (commands.Stop options schedule) (commands.StopCase options schedule)
        (stop_saved options schedule) (rows_of (found_of matches.now)) }
    ensures in_range { IfSome result IsInRange }
{
    let kind = input_of(matches)?;
    match kind {
        InputKind::Source => Some(Command::Stop(options, schedule)),
        InputKind::Case => Some(Command::StopCase(options, schedule)),
        InputKind::Saved => {
            let after = options.after;
            Some(Command::StopSaved(StopSavedOptions { after }, schedule))
        }
    }
}

/// The options of `stop` in its matches.
fn stop_options(matches: &ArgMatches<'_>) -> Option<StopOptions>
    ensures value { result ≡ options_in (rows_of (found_of matches.now)) }
    ensures in_range { IfSome result AreStopped }
{
    let processors = number_of(matches, PROCESSORS)?;
    let after = number_of(matches, AFTER)?;
    let room = saved_room_of(matches, SAVED_ROOM, processors)?;
    let slots = number_of(matches, FEW_SLOTS)?;
    Some(StopOptions {
        processors,
        after: u64::from(after),
        room,
        slots,
    })
}
