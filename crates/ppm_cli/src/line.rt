//! From the words to the command.
ghost use Rattle.std.specs.Prelude.{◌≡◌, IfOk, IfSome, map};
ghost use Rattle.std.specs.String.{string_bytes};
ghost use Rattle.ppm_cli.specs.Words.{IsInRange, command_of};

use crate::application::ppm_command;
use crate::command::{Command, command_by};
use clap::error::ErrorKind;
use ppm_words::NoMemory;
use std::alloc::Global;

/// The command that the words give, as clap reads them; the first word is the program's name. There
/// is none where clap refuses the words or would show a help text. The error says that memory was
/// refused, and nothing of the words.
pub fn read_words(alloc: Global, words: &[String]) -> Result<Option<Command>, NoMemory>
    ensures value { IfOk result (λ c. c ≡ command_of (map string_bytes words.now)) }
    ensures in_range { IfOk result (λ c. IfSome c IsInRange) }
{
    let ppm = ppm_command(alloc)?;
    match ppm.try_get_matches_from(words) {
        Ok(matches) => {
            let command = command_by(alloc, &matches)?;
            Ok(command)
        }
        Err(error) => match error.kind() {
            ErrorKind::OutOfMemory => Err(NoMemory),
            _ => Ok(None),
        },
    }
}
