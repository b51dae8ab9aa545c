//! The command `replay`, as its words give it.
ghost use Rattle.std.specs.Prelude.{◌≡◌, IfOk, IfSome};
ghost use Rattle.clap.specs.Words.{found_of, rows_of};
ghost use Rattle.ppm_cli.specs.declared.command.Command.TheVariants as commands;
ghost use Rattle.ppm_cli.specs.Words.{AreReplayed, IsInRange, by_any_input, counted_saved, replay_in};
ghost use Rattle.ppm_cli.specs.Words.{replay_options as options_in, replay_saved, replay_with};

use crate::command::Command;
use crate::counts::are_counted;
use crate::getters::{bytes_of, number_of};
use crate::input::{InputKind, input_of};
use crate::room::room_of;
use crate::table::{PROCESSORS, ROOM, SCHEDULE, SLOTS, TURNS};
use crate::takeover::takeover_of;
use clap::ArgMatches;
use ppm_cells::Takeover;
use ppm_words::Items;
use std::alloc::{AllocError, Global};

/// The options of `replay` but for its schedule.
#[derive(Clone, Copy, Debug, PartialEq, Eq)]
pub struct ReplayOptions {
    /// How many processors there are: from 1 to 64, and 4 by default.
    pub processors: u32,
    /// How many acts there are at most, those of the schedule among them: from 1 to 268435456, and
    /// 16777216 by default.
    pub turns: u64,
    /// How many words the pool of a place has: from 64 to 67108864, and 65536 by default. All pools
    /// together have 67108864 at most.
    pub room: u32,
    /// How many entries the deque of a place has: from 2 to 65536, and 4096 by default.
    pub slots: u32,
    /// What is taken over of a processor that stopped for ever: its place by default.
    pub takeover: Takeover,
}

/// The options of `replay` but for its schedule where it goes on from a saved text: this has the
/// sizes.
#[derive(Clone, Copy, Debug, PartialEq, Eq)]
pub struct ReplaySavedOptions {
    /// How many acts there are at most, those of the schedule among them: from 1 to 268435456, and
    /// 16777216 by default.
    pub turns: u64,
}

/// The command with the options and the schedule in its matches.
pub(crate) fn replay_from(
    alloc: Global,
    matches: &ArgMatches<'_>,
) -> Result<Option<Command>, AllocError>
    ensures value { IfOk result (λ c. c ≡ replay_in (rows_of (found_of matches.now))) }
    ensures in_range { IfOk result (λ c. IfSome c IsInRange) }
{
    match replay_options(matches) {
        Some(options) => match bytes_of(alloc, matches, SCHEDULE)? {
            Some(schedule) => Ok(replay_of(matches, options, schedule)),
            None => Ok(None),
        },
        None => Ok(None),
    }
}

/// The command with these options and this schedule: with counts or without them, as the matches
/// say.
fn replay_of(
    matches: &ArgMatches<'_>,
    options: ReplayOptions,
    schedule: Items<u8>,
) -> Option<Command>
    requires { AreReplayed options }
    ensures value { result ≡ replay_with options schedule (rows_of (found_of matches.now)) }
    ensures in_range { IfSome result IsInRange }
{
    let counted = are_counted(matches)?;
    if counted {
        counted_replay_of(matches, options, schedule)
    } else {
        plain_replay_of(matches, options, schedule)
    }
}

/// The command that tells its counts: over a source, a case or a saved text, as the matches say.
fn counted_replay_of(
    matches: &ArgMatches<'_>,
    options: ReplayOptions,
    schedule: Items<u8>,
) -> Option<Command>
    requires { AreReplayed options }
    ensures value { result
        ≡ by_any_input (commands.CountedReplay options schedule) (commands.CountedReplayCase options schedule)
        (counted_saved options schedule) (rows_of (found_of matches.now)) }
    ensures in_range { IfSome result IsInRange }
{
    let kind = input_of(matches)?;
    match kind {
        InputKind::Source => Some(Command::CountedReplay(options, schedule)),
        InputKind::Case => Some(Command::CountedReplayCase(options, schedule)),
        InputKind::Saved => {
            let turns = options.turns;
            Some(Command::CountedReplaySaved(ReplaySavedOptions { turns }, schedule))
        }
    }
}

/// The command that tells none: over a source, a case or a saved text, as the matches say.
fn plain_replay_of(
    matches: &ArgMatches<'_>,
    options: ReplayOptions,
    schedule: Items<u8>,
) -> Option<Command>
    requires { AreReplayed options }
    ensures value { result
        ≡ by_any_input (commands.Replay options schedule) (commands.ReplayCase options schedule)
        (replay_saved options schedule) (rows_of (found_of matches.now)) }
    ensures in_range { IfSome result IsInRange }
{
    let kind = input_of(matches)?;
    match kind {
        InputKind::Source => Some(Command::Replay(options, schedule)),
        InputKind::Case => Some(Command::ReplayCase(options, schedule)),
        InputKind::Saved => {
            let turns = options.turns;
            Some(Command::ReplaySaved(ReplaySavedOptions { turns }, schedule))
        }
    }
}

/// The options of `replay` in its matches.
fn replay_options(matches: &ArgMatches<'_>) -> Option<ReplayOptions>
    ensures value { result ≡ options_in (rows_of (found_of matches.now)) }
    ensures in_range { IfSome result AreReplayed }
{
    let processors = number_of(matches, PROCESSORS)?;
    let turns = number_of(matches, TURNS)?;
    let room = room_of(matches, ROOM, processors)?;
    let slots = number_of(matches, SLOTS)?;
    let takeover = takeover_of(matches)?;
    Some(ReplayOptions {
        processors,
        turns: u64::from(turns),
        room,
        slots,
        takeover,
    })
}
