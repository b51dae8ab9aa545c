//! The program and its subcommands, as clap is told of them.
ghost use Rattle.std.specs.Prelude.{◌≡◌, IfOk, false, map};
ghost use Rattle.clap.specs.Words.{app_of, rule_of};
ghost use Rattle.clap.specs.declared.builder.command.Command.TheViews.{out-Command as fields_of};
ghost use Rattle.ppm_cli.specs.Application.{argument_of, bare_application, command_rule};
ghost use Rattle.ppm_cli.specs.Application.{number_rule, option_rule};
ghost use Rattle.ppm_cli.specs.CommandLine.{free_text};
ghost use Rattle.ppm_cli.specs.Application.{ppm_application, command_application, with_commands};

use crate::table::{COMMANDS, CommandRow, NumberOption, OptionRow};
use clap::builder::ValueParser;
use clap::{Arg, ArgAction, Command};
use std::alloc::{AllocError, Global};

/// The program `ppm` with the commands of the table.
pub(crate) fn ppm_command<'a>(alloc: Global) -> Result<Command<'a>, AllocError>
    ensures { IfOk result (λ c. app_of c ≡ ppm_application) }
{
    with_subcommands(alloc, bare_command(alloc), &COMMANDS)
}

/// The program `ppm` alone. It has no subcommand `help`.
fn bare_command<'a>(alloc: Global) -> Command<'a>
    ensures app { app_of result ≡ bare_application }
{
    Command::new(alloc, "ppm").disable_help_subcommand(true)
}

/// The program with these commands more.
fn with_subcommands<'a>(
    alloc: Global,
    mut program: Command<'a>,
    commands: &[CommandRow],
) -> Result<Command<'a>, AllocError>
    ensures { IfOk result (λ c. app_of c
        ≡ with_commands (app_of program.entry) (map command_rule commands.now)) }
{
    for command in commands {
        program = program.subcommand(subcommand(alloc, *command)?)?;
    }
    Ok(program)
}

/// The subcommand that a command is.
fn subcommand<'a>(alloc: Global, command: CommandRow) -> Result<Command<'a>, AllocError>
    ensures app { IfOk result (λ c. app_of c ≡ command_application (command_rule command)) }
    ensures local { IfOk result (λ c. (fields_of c).has_globals ≡ false) }
{
    let mut made = Command::new(alloc, command.name);
    for option in command.options {
        made = made.arg(argument(alloc, *option))?;
    }
    Ok(made)
}

/// The argument that an option is.
fn argument<'a>(alloc: Global, option: OptionRow) -> Arg<'a>
    ensures rule { rule_of result ≡ argument_of (option_rule option) }
    ensures local { result.global ≡ false }
{
    match option {
        OptionRow::Number(number) => number_argument(alloc, number),
        OptionRow::Choice(choice) => text_argument(alloc, choice.name, choice.default),
        OptionRow::Text(text) => text_argument(alloc, text.name, text.default),
    }
}

/// The argument that an option is whose value is any text, as far as clap is told.
fn text_argument<'a>(alloc: Global, name: &'static str, default: &'static str) -> Arg<'a>
    ensures rule { rule_of result ≡ argument_of (free_text name.now default.now) }
    ensures local { result.global ≡ false }
{
    Arg::new(alloc, name)
        .long(name)
        .action(ArgAction::Set)
        .default_value(default)
}

/// The argument that an option is whose value is a number.
fn number_argument<'a>(alloc: Global, option: NumberOption) -> Arg<'a>
    ensures rule { rule_of result ≡ argument_of (number_rule option) }
    ensures local { result.global ≡ false }
{
    Arg::new(alloc, option.name)
        .long(option.name)
        .action(ArgAction::Set)
        .value_parser(ValueParser::Unsigned(u64::from(option.low), u64::from(option.high)))
        .default_value(option.default)
}
