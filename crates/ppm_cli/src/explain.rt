//! The command `explain`, as its words give it.
ghost use Rattle.std.specs.Prelude.{◌≡◌, ◌∷◌, [], IfOk, IfSome, false, true};
ghost use Rattle.clap.specs.Words.{found_of, rows_of};
ghost use Rattle.ppm_cli.specs.Values.{and_then, choice_given, explained_given};
ghost use Rattle.ppm_cli.specs.CommandLine.{processors as processors_rule, trap as trap_rule};
ghost use Rattle.ppm_cli.specs.CommandLine.{turns as turns_rule};
ghost use Rattle.ppm_cli.specs.Words.{IsInRange, IsOfForm, explain_by, explain_in, explain_trap_of};
ghost use Rattle.ppm_cli.specs.Words.{explain_with, unless_stated};

use crate::command::Command;
use crate::getters::{choice_of, number_of, stated_of};
use crate::serial::SerialOptions;
use crate::table::{EXPLAINED, PLAN, PROCESSORS, STATED_SCHEDULE, TRAP, TURNS};
use clap::ArgMatches;
use ppm_words::Items;
use std::alloc::{AllocError, Global};

/// Which text is explained.
#[derive(Clone, Copy, Debug, PartialEq, Eq)]
pub enum ExplainedText {
    /// A source, which is judged as `run`, `serial` and `code` do.
    Source,
    /// A listing, which is judged as `check` does.
    Listing,
    /// A case, which is judged as `races` does before it runs the code.
    Case,
    /// A saved text, which is judged as `show` does.
    Saved,
}

/// Which word is explained.
#[derive(Clone, Copy, Debug, PartialEq, Eq)]
pub enum ExplainedOrders {
    /// A plan, which is judged as `run` does.
    Plan,
    /// A schedule, which is judged as `replay` does.
    Schedule,
}

/// The options of `explain` where a plan or a schedule is explained.
#[derive(Clone, Copy, Debug, PartialEq, Eq)]
pub struct ExplainOptions {
    /// Which of the two.
    pub orders: ExplainedOrders,
    /// For how many processors: from 1 to 64, and 4 by default.
    pub processors: u32,
}

/// The command with the options in its matches.
pub(crate) fn explain_from(
    alloc: Global,
    matches: &ArgMatches<'_>,
) -> Result<Option<Command>, AllocError>
    ensures value { IfOk result (λ c. c ≡ explain_in (rows_of (found_of matches.now))) }
    ensures in_range { IfOk result (λ c. IfSome c IsInRange) }
{
    match explained_of(matches) {
        Some(text) => match number_of(matches, PROCESSORS) {
            Some(processors) => match stated_of(alloc, matches, PLAN)? {
                Some(plan) => match stated_of(alloc, matches, STATED_SCHEDULE)? {
                    Some(schedule) => Ok(explained_with(matches, text, processors, plan, schedule)),
                    None => Ok(None),
                },
                None => Ok(None),
            },
            None => Ok(None),
        },
        None => Ok(None),
    }
}

/// Which text is explained, if the matches name it by one of the four words.
fn explained_of(matches: &ArgMatches<'_>) -> Option<ExplainedText>
    ensures { result ≡ explained_given (rows_of (found_of matches.now)) }
{
    choice_of(
        matches,
        EXPLAINED,
        &[
            ExplainedText::Source,
            ExplainedText::Listing,
            ExplainedText::Case,
            ExplainedText::Saved,
        ],
    )
}

/// The command: of the trap of a source, if the matches say so, else of a plan, of a schedule or of
/// the text.
fn explained_with(
    matches: &ArgMatches<'_>,
    text: ExplainedText,
    processors: u32,
    plan: Option<Items<u8>>,
    schedule: Option<Items<u8>>,
) -> Option<Command>
    requires range { IsOfForm processors_rule.form processors }
    ensures value { result ≡ and_then (choice_given trap_rule (false ∷ true ∷ []) (rows_of (found_of matches.now)))
        (explain_with text processors plan schedule (rows_of (found_of matches.now))) }
    ensures in_range { IfSome result IsInRange }
{
    let trap = choice_of(matches, TRAP, &[false, true])?;
    if trap {
        let turns = number_of(matches, TURNS)?;
        trap_unless_stated(text, turns, plan, schedule)
    } else {
        explained(text, processors, plan, schedule)
    }
}

/// The command of the trap of a source, if neither a plan nor a schedule is stated.
fn trap_unless_stated(
    text: ExplainedText,
    turns: u32,
    plan: Option<Items<u8>>,
    schedule: Option<Items<u8>>,
) -> Option<Command>
    requires range { IsOfForm turns_rule.form turns }
    ensures value { result ≡ unless_stated plan schedule (explain_trap_of text turns) }
    ensures in_range { IfSome result IsInRange }
{
    match (plan, schedule) {
        (None, None) => explained_trap(text, turns),
        (Some(_), None) => None,
        (None, Some(_)) => None,
        (Some(_), Some(_)) => None,
    }
}

/// The command of the trap of a source; there is none of another text.
fn explained_trap(text: ExplainedText, turns: u32) -> Option<Command>
    requires range { IsOfForm turns_rule.form turns }
    ensures value { result ≡ explain_trap_of text turns }
    ensures in_range { IfSome result IsInRange }
{
    match text {
        ExplainedText::Source => Some(Command::ExplainTrap(SerialOptions {
            turns: u64::from(turns),
        })),
        ExplainedText::Listing => None,
        ExplainedText::Case => None,
        ExplainedText::Saved => None,
    }
}

/// The command: of a plan or of a schedule, if one is stated, else of the text. There is none where
/// both are.
fn explained(
    text: ExplainedText,
    processors: u32,
    plan: Option<Items<u8>>,
    schedule: Option<Items<u8>>,
) -> Option<Command>
    requires range { IsOfForm processors_rule.form processors }
    ensures value { result ≡ explain_by text processors plan schedule }
    ensures in_range { IfSome result IsInRange }
{
    match (plan, schedule) {
        (None, None) => Some(Command::Explain(text)),
        (Some(plan), None) => {
            let orders = ExplainedOrders::Plan;
            Some(Command::ExplainOrders(ExplainOptions { orders, processors }, plan))
        }
        (None, Some(schedule)) => {
            let orders = ExplainedOrders::Schedule;
            Some(Command::ExplainOrders(ExplainOptions { orders, processors }, schedule))
        }
        (Some(_), Some(_)) => None,
    }
}
