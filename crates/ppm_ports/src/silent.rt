//! A watcher that keeps nothing.
ghost use Rattle.std.specs.Prelude.{None, IsOk};
ghost use Rattle.ppm_ports.specs.Told.{TellsOne};

use crate::watch::Watch;
use ppm_words::{Event, NoMemory};

/// A watcher that shows nothing of what it is told, and never refuses.
#[derive(Clone, Copy, Debug, PartialEq, Eq)]
pub struct Silent;

impl Watch for Silent {
    ghost told = { λ _. None };

    fn turn(&mut self, event: Event) -> Result<(), NoMemory>
        ensures told { TellsOne None None event result }
        ensures never_refuses { IsOk result }
    {
        let _ = event;
        Ok(())
    }
}
