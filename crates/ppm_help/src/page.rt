//! The page as a whole.

use crate::options::print_options;
use crate::statuses::print_statuses;
use crate::texts::{AHEAD, example_of, purpose_of};
use ppm_cli::{COMMANDS, CommandRow};
use std::alloc::Global;
use std::io;

/// Prints the page: what stands ahead, the commands, and the statuses.
pub(crate) fn print_page(rt: &impl Print, alloc: Global) -> io::Result<()> {
    println!(rt; "{AHEAD}")?;
    for command in &COMMANDS {
        print_command(rt, alloc, *command)?;
    }
    print_statuses(rt)
}

/// Prints a command: its purpose, an example, and its options.
fn print_command(rt: &impl Print, alloc: Global, command: CommandRow) -> io::Result<()> {
    println!(rt; "{}: {}", command.name, purpose_of(command.name))?;
    println!(rt; "  ./ppm {} {}", command.name, example_of(command.name))?;
    print_options(rt, alloc, command)?;
    println!(rt; "")
}
