//! The options of a command, one in a line.
ghost use Rattle.std.specs.Prelude.{◌≡◌};
ghost use Rattle.ppm_cli.specs.Application.{option_rule};

use crate::texts::meaning_of;
use ppm_cli::{CommandRow, OptionRow};
use std::alloc::{AllocError, Global};
use std::io;

/// Prints the options of a command, if it has any, below a line that says what stands in them.
pub(crate) fn print_options(rt: &impl Print, alloc: Global, command: CommandRow) -> io::Result<()> {
    if command.options.is_empty() {
        return Ok(());
    }
    println!(rt; "  option         values               default")?;
    for option in command.options {
        print_option(rt, alloc, command.name, *option)?;
    }
    Ok(())
}

/// Prints one option of a command: its name, its values, its default, and what it means.
fn print_option(
    rt: &impl Print,
    alloc: Global,
    command: &str,
    option: OptionRow,
) -> io::Result<()> {
    let name = name_of(option);
    let values = values_of(alloc, option)?;
    let default = default_of(option);
    println!(rt;
        "  --{name:<12} {values:<20} {default:<9} {}",
        meaning_of(command, name)
    )
}

/// The name of an option, without the two hyphens.
fn name_of(option: OptionRow) -> &'static str
    ensures { result.now ≡ (option_rule option).name }
{
    match option {
        OptionRow::Number(number) => number.name,
        OptionRow::Choice(choice) => choice.name,
        OptionRow::Text(text) => text.name,
    }
}

/// The values that an option takes.
fn values_of(alloc: Global, option: OptionRow) -> Result<String, AllocError> {
    match option {
        OptionRow::Number(number) => format!(in alloc; "{} to {}", number.low, number.high),
        OptionRow::Choice(choice) => words_of(alloc, choice.words),
        OptionRow::Text(_) => String::from_str(alloc, "a text"),
    }
}

/// The words of a choice, with commas between them and `or` before the last.
fn words_of(alloc: Global, words: &[&str]) -> Result<String, AllocError> {
    let mut text = String::new(alloc);
    for (i, word) in words.iter().enumerate() {
        if i > 0 {
            text.push_str(if i + 1 < words.len() { ", " } else { " or " })?;
        }
        text.push_str(word)?;
    }
    Ok(text)
}

/// The word that stands for the value where an option is not given.
fn default_of(option: OptionRow) -> &'static str
    ensures { result.now ≡ (option_rule option).default }
{
    match option {
        OptionRow::Number(number) => number.default,
        OptionRow::Choice(choice) => choice.default,
        OptionRow::Text(text) => text.default,
    }
}
