//! The command `sweep`, as its words give it.
ghost use Rattle.std.specs.Prelude.{◌≡◌, IfOk, IfSome};
ghost use Rattle.clap.specs.Words.{found_of, rows_of};
ghost use Rattle.ppm_cli.specs.declared.command.Command.TheVariants as commands;
ghost use Rattle.ppm_cli.specs.Words.{AreSwept, IsInRange, by_input, sweep_in};
ghost use Rattle.ppm_cli.specs.Words.{sweep_options as options_in};

use crate::command::Command;
use crate::getters::{bytes_of, number_of};
use crate::input::is_case;
use crate::room::room_of;
use crate::table::{
    ACTS, CAPSULES, COPIED_ROOM, COPIED_SLOTS, FROM, MET, PROCESSORS, RUNS, SCHEDULE, SEED, TURNS,
};
use crate::takeover::{SweptTakeovers, swept_takeovers_of};
use clap::ArgMatches;
use ppm_words::Items;
use std::alloc::{AllocError, Global};

/// The options of `sweep` but for its schedule, which is that of the base run.
#[derive(Clone, Copy, Debug, PartialEq, Eq)]
pub struct SweepOptions {
    /// How many processors there are: from 1 to 64, and 4 by default.
    pub processors: u32,
    /// How many acts each run has at most, those of the schedule among them: from 1 to 268435456,
    /// and 16777216 by default.
    pub turns: u64,
    /// How many words the pool of a place has: from 64 to 67108864, and 16384 by default. All pools
    /// together have 67108864 at most.
    pub room: u32,
    /// How many entries the deque of a place has: from 2 to 65536, and 256 by default.
    pub slots: u32,
    /// Under which takeovers there are runs: under both by default.
    pub takeover: SweptTakeovers,
    /// How many faults are put into a run at most: 1 or 2, and 1 by default.
    pub faults: u32,
    /// The first act of the base run before which the first fault is put, counted from 0: from 0 to
    /// 268435455, and 0 by default.
    pub from: u64,
    /// Before how many acts of the base run it is put, from that one on: from 1 to 268435456, and
    /// 268435456 by default.
    pub acts: u64,
    /// How many of these acts are drawn, before each of which the first fault is put: from 0 to
    /// 65536. With 0, the default, none is drawn, and it is put before each.
    pub runs: u64,
    /// Where the random words begin by which acts are drawn: from 0 to 4294967295, and 1 by
    /// default.
    pub seed: u64,
    /// How many capsules the depth-first run may have with which ends are compared: from 1 to
    /// 4294967295, and 16777216 by default.
    pub capsules: u64,
}

/// The command with the options and the schedule in its matches.
pub(crate) fn sweep_from(
    alloc: Global,
    matches: &ArgMatches<'_>,
) -> Result<Option<Command>, AllocError>
    ensures value { IfOk result (λ c. c ≡ sweep_in (rows_of (found_of matches.now))) }
    ensures in_range { IfOk result (λ c. IfSome c IsInRange) }
{
    match sweep_options(matches) {
        Some(options) => match bytes_of(alloc, matches, SCHEDULE)? {
            Some(schedule) => Ok(sweep_of(matches, options, schedule)),
            None => Ok(None),
        },
        None => Ok(None),
    }
}

/// The command with these options and this schedule: over a source or over a case, as the matches
/// say.
fn sweep_of(matches: &ArgMatches<'_>, options: SweepOptions, schedule: Items<u8>) -> Option<Command>
    requires { AreSwept options }
    ensures value { result
        ≡ by_input (commands.Sweep options schedule) (commands.SweepCase options schedule)
        (rows_of (found_of matches.now)) }
    ensures in_range { IfSome result IsInRange }
{
    let of_case = is_case(matches)?;
    if of_case {
        Some(Command::SweepCase(options, schedule))
    } else {
        Some(Command::Sweep(options, schedule))
    }
}

/// The options of `sweep` in its matches.
fn sweep_options(matches: &ArgMatches<'_>) -> Option<SweepOptions>
    ensures value { result ≡ options_in (rows_of (found_of matches.now)) }
    ensures in_range { IfSome result AreSwept }
{
    let processors = number_of(matches, PROCESSORS)?;
    let turns = number_of(matches, TURNS)?;
    let room = room_of(matches, COPIED_ROOM, processors)?;
    let slots = number_of(matches, COPIED_SLOTS)?;
    let takeover = swept_takeovers_of(matches)?;
    let faults = number_of(matches, MET)?;
    let from = number_of(matches, FROM)?;
    let acts = number_of(matches, ACTS)?;
    let runs = number_of(matches, RUNS)?;
    let seed = number_of(matches, SEED)?;
    let capsules = number_of(matches, CAPSULES)?;
    Some(SweepOptions {
        processors,
        turns: u64::from(turns),
        room,
        slots,
        takeover,
        faults,
        from: u64::from(from),
        acts: u64::from(acts),
        runs: u64::from(runs),
        seed: u64::from(seed),
        capsules: u64::from(capsules),
    })
}
