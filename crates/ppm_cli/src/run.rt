//! The command `run`, as its words give it.
ghost use Rattle.std.specs.Prelude.{◌≡◌, IfOk, IfSome};
ghost use Rattle.clap.specs.Words.{found_of, rows_of};
ghost use Rattle.ppm_cli.specs.declared.command.Command.TheVariants as commands;
ghost use Rattle.ppm_cli.specs.Words.{AreRun, IsInRange, by_input, run_in, run_with};
ghost use Rattle.ppm_cli.specs.Values.{idle_given};
ghost use Rattle.ppm_cli.specs.Words.{run_options as options_in};

use crate::command::Command;
use crate::counts::are_counted;
use crate::getters::{bytes_of, choice_of, number_of};
use crate::input::is_case;
use crate::room::room_of;
use crate::table::{FAULTS, IDLE, LOOKS, PROCESSORS, ROOM, SEED, SLOTS, TURNS};
use crate::takeover::takeover_of;
use clap::ArgMatches;
use ppm_cells::Takeover;
use ppm_words::{Idle, Items};
use std::alloc::{AllocError, Global};

/// The options of `run` or of `ram` but for its plan of faults.
#[derive(Clone, Copy, Debug, PartialEq, Eq)]
pub struct RunOptions {
    /// How many processors there are: from 1 to 64, and 4 by default.
    pub processors: u32,
    /// How many work turns each processor may make: from 1 to 268435456, and 16777216 by default.
    pub turns: u64,
    /// How many words the pool of a place has: from 64 to 67108864, and 65536 by default. All pools
    /// together have 67108864 at most.
    pub room: u32,
    /// How many entries the deque of a place has: from 2 to 65536, and 4096 by default.
    pub slots: u32,
    /// How many looks for work in a row a processor makes before it leaves or parks: from 1 to
    /// 1048576, and 1000 by default.
    pub looks: u32,
    /// Where the random victims begin: from 0 to 4294967295, and 1 by default.
    pub seed: u32,
    /// What is taken over of a processor that stopped for ever: its place by default.
    pub takeover: Takeover,
    /// What a processor does that finds no work: it leaves by default.
    pub idle: Idle,
}

/// The command with the options and the plan in its matches.
pub(crate) fn run_from(
    alloc: Global,
    matches: &ArgMatches<'_>,
) -> Result<Option<Command>, AllocError>
    ensures value { IfOk result (λ c. c ≡ run_in (rows_of (found_of matches.now))) }
    ensures in_range { IfOk result (λ c. IfSome c IsInRange) }
{
    match run_options(matches) {
        Some(options) => match bytes_of(alloc, matches, FAULTS)? {
            Some(plan) => Ok(run_of(matches, options, plan)),
            None => Ok(None),
        },
        None => Ok(None),
    }
}

/// The command with these options and this plan: with counts or without them, as the matches say.
fn run_of(matches: &ArgMatches<'_>, options: RunOptions, plan: Items<u8>) -> Option<Command>
    requires { AreRun options }
    ensures value { result ≡ run_with options plan (rows_of (found_of matches.now)) }
    ensures in_range { IfSome result IsInRange }
{
    let counted = are_counted(matches)?;
    if counted {
        counted_run_of(matches, options, plan)
    } else {
        plain_run_of(matches, options, plan)
    }
}

/// The command that tells its counts: over a source or over a case, as the matches say.
fn counted_run_of(matches: &ArgMatches<'_>, options: RunOptions, plan: Items<u8>) -> Option<Command>
    requires { AreRun options }
    ensures value { result
        ≡ by_input (commands.CountedRun options plan) (commands.CountedRunCase options plan)
        (rows_of (found_of matches.now)) }
    ensures in_range { IfSome result IsInRange }
{
    let of_case = is_case(matches)?;
    if of_case {
        Some(Command::CountedRunCase(options, plan))
    } else {
        Some(Command::CountedRun(options, plan))
    }
}

/// The command that tells none: over a source or over a case, as the matches say.
fn plain_run_of(matches: &ArgMatches<'_>, options: RunOptions, plan: Items<u8>) -> Option<Command>
    requires { AreRun options }
    ensures value { result
        ≡ by_input (commands.Run options plan) (commands.RunCase options plan)
        (rows_of (found_of matches.now)) }
    ensures in_range { IfSome result IsInRange }
{
    let of_case = is_case(matches)?;
    if of_case {
        Some(Command::RunCase(options, plan))
    } else {
        Some(Command::Run(options, plan))
    }
}

/// The options of `run` or of `ram` in its matches.
pub(crate) fn run_options(matches: &ArgMatches<'_>) -> Option<RunOptions>
    ensures value { result ≡ options_in (rows_of (found_of matches.now)) }
    ensures in_range { IfSome result AreRun }
{
    let processors = number_of(matches, PROCESSORS)?;
    let turns = number_of(matches, TURNS)?;
    let room = room_of(matches, ROOM, processors)?;
    let slots = number_of(matches, SLOTS)?;
    let looks = number_of(matches, LOOKS)?;
    let seed = number_of(matches, SEED)?;
    let takeover = takeover_of(matches)?;
    let idle = idle_of(matches)?;
    Some(RunOptions {
        processors,
        turns: u64::from(turns),
        room,
        slots,
        looks,
        seed,
        takeover,
        idle,
    })
}

/// What a processor does that finds no work, if the matches name it by one of the two words.
fn idle_of(matches: &ArgMatches<'_>) -> Option<Idle>
    ensures { result ≡ idle_given (rows_of (found_of matches.now)) }
{
    choice_of(matches, IDLE, &[Idle::Leave, Idle::Park])
}
