//! The command `strands`, as its words give it.
ghost use Rattle.std.specs.Prelude.{◌≡◌, IfOk, IfSome, codes};
ghost use Rattle.std.specs.Str.{bytes_eq};
ghost use Rattle.clap.specs.Words.{found_of, rows_of};
ghost use Rattle.ppm_cli.specs.Values.{strands_form_given};
ghost use Rattle.ppm_cli.specs.Words.{AreDrawn, IsInRange, strands_by, strands_in};
ghost use Rattle.ppm_cli.specs.Words.{drawn_options as options_in};

use crate::command::Command;
use crate::getters::{bytes_of, choice_of, number_of};
use crate::table::{RUNS, SCHEDULE, SEED, STEPS, STRANDS, STRANDS_FORM, TURNS};
use clap::ArgMatches;
use ppm_words::Items;
use std::alloc::{AllocError, Global};

/// What is told of a run of strands.
#[derive(Clone, Copy, Debug, PartialEq, Eq)]
pub enum StrandsForm {
    /// What it came to.
    Arrays,
    /// What others saw of each turn, and what it came to.
    Text,
}

/// The options of `strands` by a schedule.
#[derive(Clone, Copy, Debug, PartialEq, Eq)]
pub struct StrandsOptions {
    /// How many turns the run has at most, those of the schedule among them: from 1 to 268435456,
    /// and 16777216 by default.
    pub turns: u64,
    /// What is told: what the run came to by default.
    pub form: StrandsForm,
}

/// The options of `strands` by schedules that are drawn.
#[derive(Clone, Copy, Debug, PartialEq, Eq)]
pub struct DrawnStrandsOptions {
    /// How many turns each run has at most, those of its schedule among them: from 1 to 268435456,
    /// and 16777216 by default.
    pub turns: u64,
    /// What is told: what the run came to by default.
    pub form: StrandsForm,
    /// How many schedules are drawn: from 1 to 65536.
    pub runs: u32,
    /// The seed of the first schedule: from 0 to 4294967295, and 1 by default. The others have the
    /// seeds after it.
    pub seed: u32,
    /// Below which number the strands are whose steps are drawn: from 1 to 65536, and 3 by default.
    pub strands: u32,
    /// How many steps each schedule has: from 1 to 4096, and 64 by default.
    pub steps: u32,
}

/// The command with the options and the schedule in its matches.
pub(crate) fn strands_from(
    alloc: Global,
    matches: &ArgMatches<'_>,
) -> Result<Option<Command>, AllocError>
    ensures value { IfOk result (λ c. c ≡ strands_in (rows_of (found_of matches.now))) }
    ensures in_range { IfOk result (λ c. IfSome c IsInRange) }
{
    match drawn_options(matches) {
        Some(options) => match bytes_of(alloc, matches, SCHEDULE)? {
            Some(schedule) => Ok(strands_of(options, schedule)),
            None => Ok(None),
        },
        None => Ok(None),
    }
}

/// The command with these options: by the schedule where none are drawn. Where some are drawn, no
/// other schedule may be stated.
fn strands_of(options: DrawnStrandsOptions, schedule: Items<u8>) -> Option<Command>
    requires { AreDrawn options }
    ensures value { result ≡ strands_by options schedule }
    ensures in_range { IfSome result IsInRange }
{
    if options.runs == 0 {
        let DrawnStrandsOptions { turns, form, .. } = options;
        Some(Command::Strands(StrandsOptions { turns, form }, schedule))
    } else if is_none(schedule.as_slice()) {
        Some(Command::DrawnStrands(options))
    } else {
        None
    }
}

/// Whether bytes say the schedule without items.
fn is_none(bytes: &[u8]) -> bool
    ensures { result ≡ bytes_eq bytes.now (codes "none") }
{
    bytes == b"none".as_slice()
}

/// The options of `strands` in its matches, with how many schedules are drawn, 0 for none.
fn drawn_options(matches: &ArgMatches<'_>) -> Option<DrawnStrandsOptions>
    ensures value { result ≡ options_in (rows_of (found_of matches.now)) }
    ensures in_range { IfSome result AreDrawn }
{
    let turns = number_of(matches, TURNS)?;
    let form = strands_form_of(matches)?;
    let runs = number_of(matches, RUNS)?;
    let seed = number_of(matches, SEED)?;
    let strands = number_of(matches, STRANDS)?;
    let steps = number_of(matches, STEPS)?;
    Some(DrawnStrandsOptions {
        turns: u64::from(turns),
        form,
        runs,
        seed,
        strands,
        steps,
    })
}

/// What is told of a run of strands, if the matches name it by one of the two words: `arrays` or
/// `text`.
fn strands_form_of(matches: &ArgMatches<'_>) -> Option<StrandsForm>
    ensures { result ≡ strands_form_given (rows_of (found_of matches.now)) }
{
    choice_of(
        matches,
        STRANDS_FORM,
        &[StrandsForm::Arrays, StrandsForm::Text],
    )
}
