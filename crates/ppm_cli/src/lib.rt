//! The words of the command line, and the command that they give.
//! Model: the words are the list of their texts; the commands are a table of rules
//! (`specs/CommandLine`), and these are an application of `clap` (`specs/Application`).
//! Contract: the command is that which `clap` finds in the words, each option in its range, else
//! none (`specs/Words`).
//! Stands on `clap`, `ppm_words` and `ppm_cells`; `ppm_top` calls it. After clap's builder; the
//! table is this project's.
#![tactic(auto)]

mod application;
mod capsules;
mod check;
mod code;
mod command;
mod counts;
mod example;
mod explain;
mod getters;
mod input;
mod laws;
mod line;
mod ram;
mod replay;
mod resume;
mod room;
mod run;
mod serial;
mod stop;
mod strands;
mod sweep;
mod table;
mod takeover;
mod trace;

pub use capsules::CapsuleLimit;
pub use command::Command;
pub use example::SelfOptions;
pub use explain::{ExplainOptions, ExplainedOrders, ExplainedText};
pub use input::InputKind;
pub use laws::any_command_may_be_added;
pub use line::read_words;
pub use replay::{ReplayOptions, ReplaySavedOptions};
pub use resume::ResumeOptions;
pub use run::RunOptions;
pub use serial::SerialOptions;
pub use stop::{StopOptions, StopSavedOptions};
pub use strands::{DrawnStrandsOptions, StrandsForm, StrandsOptions};
pub use sweep::SweepOptions;
pub use table::{COMMANDS, ChoiceOption, CommandRow, NumberOption, OptionRow, TextOption};
pub use takeover::SweptTakeovers;
pub use trace::{TraceOptions, TraceSavedOptions, TracedForm, TracedLines};
