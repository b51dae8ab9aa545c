//! The help page: the commands with their options, an example of each, and the statuses.
//! Model: a page is lines; ranges and defaults are those of the table with which words are read
//! (`COMMANDS` of `ppm_cli`).
//! Contract: the name and the default of an option are those of its rule. The page stands in the
//! file `stdout` beside `src`, which the script `ppm` shows. The gate runs this program and
//! compares the two, so page and table do not drift apart.
//! Stands on `ppm_cli` and `ppm_answers`; nothing stands on it. The page's form is this project's.
#![tactic(auto)]

mod options;
mod page;
mod statuses;
mod texts;

use std::io;

fn main(rt: HostRuntime) -> io::Result<()> {
    page::print_page(&rt, rt.alloc())
}
