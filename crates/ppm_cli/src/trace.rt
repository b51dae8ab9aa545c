//! The command `trace`, as its words give it.
ghost use Rattle.std.specs.Prelude.{◌≡◌, IfOk, IfSome};
ghost use Rattle.clap.specs.Words.{found_of, rows_of};
ghost use Rattle.ppm_cli.specs.declared.command.Command.TheVariants as commands;
ghost use Rattle.ppm_cli.specs.Values.{traced_form_given, traced_lines_given};
ghost use Rattle.ppm_cli.specs.Words.{AreTraced, IsInRange, by_any_input, trace_in};
ghost use Rattle.ppm_cli.specs.Words.{trace_options as options_in, trace_saved};

use crate::command::Command;
use crate::getters::{bytes_of, choice_of, number_of};
use crate::input::{InputKind, input_of};
use crate::room::room_of;
use crate::table::{
    ONLY, PROCESSORS, ROOM, SCHEDULE, SLOTS, TRACED_ACTS, TRACED_FORM, TRACED_FROM,
};
use crate::takeover::takeover_of;
use clap::ArgMatches;
use ppm_cells::Takeover;
use ppm_words::Items;
use std::alloc::{AllocError, Global};

/// The form of a trace.
#[derive(Clone, Copy, Debug, PartialEq, Eq)]
pub enum TracedForm {
    /// Lines of text.
    Text,
    /// Events in JSON, for a viewer of traces.
    Json,
    /// A picture in SVG.
    Svg,
}

/// Which lines of a trace are written.
#[derive(Clone, Copy, Debug, PartialEq, Eq)]
pub enum TracedLines {
    /// Those of all acts.
    Turns,
    /// Those of acts that end a row.
    Rows,
    /// Those of acts that have a mark.
    Marks,
}

/// The options of `trace` but for its schedule.
#[derive(Clone, Copy, Debug, PartialEq, Eq)]
pub struct TraceOptions {
    /// How many processors there are: from 1 to 64, and 4 by default.
    pub processors: u32,
    /// How many acts are made before the first one that is told: from 0 to 268435456, and 0 by
    /// default.
    pub from: u64,
    /// How many acts are told at most: from 1 to 1048576, and 65536 by default.
    pub acts: u64,
    /// How many words the pool of a place has: from 64 to 67108864, and 65536 by default. All pools
    /// together have 67108864 at most.
    pub room: u32,
    /// How many entries the deque of a place has: from 2 to 65536, and 4096 by default.
    pub slots: u32,
    /// What is taken over of a processor that stopped for ever: its place by default.
    pub takeover: Takeover,
    /// The form: lines of text by default.
    pub form: TracedForm,
    /// Which lines are written, where the form is text: those of all acts by default.
    pub only: TracedLines,
}

/// The options of `trace` but for its schedule where it goes on from a saved text: this has the
/// sizes.
#[derive(Clone, Copy, Debug, PartialEq, Eq)]
pub struct TraceSavedOptions {
    /// How many acts are made before the first one that is told: from 0 to 268435456, and 0 by
    /// default.
    pub from: u64,
    /// How many acts are told at most: from 1 to 1048576, and 65536 by default.
    pub acts: u64,
    /// The form: lines of text by default.
    pub form: TracedForm,
    /// Which lines are written, where the form is text: those of all acts by default.
    pub only: TracedLines,
}

/// The command with the options and the schedule in its matches.
pub(crate) fn trace_from(
    alloc: Global,
    matches: &ArgMatches<'_>,
) -> Result<Option<Command>, AllocError>
    ensures value { IfOk result (λ c. c ≡ trace_in (rows_of (found_of matches.now))) }
    ensures in_range { IfOk result (λ c. IfSome c IsInRange) }
{
    match trace_options(matches) {
        Some(options) => match bytes_of(alloc, matches, SCHEDULE)? {
            Some(schedule) => Ok(trace_of(matches, options, schedule)),
            None => Ok(None),
        },
        None => Ok(None),
    }
}

/// The command with these options and this schedule: over a source, a case or a saved text, as the
/// matches say.
fn trace_of(matches: &ArgMatches<'_>, options: TraceOptions, schedule: Items<u8>) -> Option<Command>
    requires { AreTraced options }
    ensures value { result
        ≡ by_any_input (commands.Trace options schedule) (commands.TraceCase options schedule)
        (trace_saved options schedule) (rows_of (found_of matches.now)) }
    ensures in_range { IfSome result IsInRange }
{
    let kind = input_of(matches)?;
    match kind {
        InputKind::Source => Some(Command::Trace(options, schedule)),
        InputKind::Case => Some(Command::TraceCase(options, schedule)),
        InputKind::Saved => Some(Command::TraceSaved(saved_options(options), schedule)),
    }
}

/// What the options say where the run goes on from a saved text.
fn saved_options(options: TraceOptions) -> TraceSavedOptions
    ensures { result
        ≡ record { from = options.from; acts = options.acts; form = options.form; only = options.only } }
{
    TraceSavedOptions {
        from: options.from,
        acts: options.acts,
        form: options.form,
        only: options.only,
    }
}

/// The options of `trace` in its matches.
fn trace_options(matches: &ArgMatches<'_>) -> Option<TraceOptions>
    ensures value { result ≡ options_in (rows_of (found_of matches.now)) }
    ensures in_range { IfSome result AreTraced }
{
    let processors = number_of(matches, PROCESSORS)?;
    let from = number_of(matches, TRACED_FROM)?;
    let acts = number_of(matches, TRACED_ACTS)?;
    let room = room_of(matches, ROOM, processors)?;
    let slots = number_of(matches, SLOTS)?;
    let takeover = takeover_of(matches)?;
    let form = traced_form_of(matches)?;
    let only = traced_lines_of(matches)?;
    Some(TraceOptions {
        processors,
        from: u64::from(from),
        acts: u64::from(acts),
        room,
        slots,
        takeover,
        form,
        only,
    })
}

/// The form of a trace, if the matches name it by one of the three words: `text`, `json` or
/// `svg`.
fn traced_form_of(matches: &ArgMatches<'_>) -> Option<TracedForm>
    ensures { result ≡ traced_form_given (rows_of (found_of matches.now)) }
{
    choice_of(
        matches,
        TRACED_FORM,
        &[TracedForm::Text, TracedForm::Json, TracedForm::Svg],
    )
}

/// Which lines of a trace are written, if the matches name them by one of the three words: `turns`,
/// `rows` or `marks`.
fn traced_lines_of(matches: &ArgMatches<'_>) -> Option<TracedLines>
    ensures { result ≡ traced_lines_given (rows_of (found_of matches.now)) }
{
    choice_of(
        matches,
        ONLY,
        &[TracedLines::Turns, TracedLines::Rows, TracedLines::Marks],
    )
}
