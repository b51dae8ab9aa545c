//! What holds of the table of commands, whichever commands it has.
ghost use Rattle.std.specs.Prelude.{◌≡◌, List, true};
ghost use Rattle.clap.specs.Words.{is_simple_and_free};
ghost use Rattle.ppm_cli.specs.Application.{application_of};
ghost use Rattle.ppm_cli.specs.CommandLine.{CommandRule, command_line};
ghost use Rattle.ppm_cli.specs.Sound.{IsSound};

/// Any command may be added: whatever commands and options a table has, clap's laws of a parse and
/// of its refusals hold for the application; and in the whole command line names differ, and each
/// default is a value of its option.
pub fn any_command_may_be_added()
    ensures parsed { (table : List CommandRule) → is_simple_and_free (application_of table) ≡ true }
    ensures sound { IsSound command_line }
{}
