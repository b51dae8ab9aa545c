//! Watchers that count what they are told, and refuse.
ghost use Rattle.std.specs.Prelude.{None};

use ppm_ports::Watch;
use ppm_words::{Event, NoMemory};

/// A watcher that takes so many events more, and refuses the next one.
#[derive(Clone, Copy, Debug, Drop)]
pub(crate) struct Watcher {
    pub(crate) left: u64,
    /// Whether it has taken one.
    pub(crate) told: bool,
}

impl Watch for Watcher {
    ghost told = { λ _. None };

    fn turn(&mut self, event: Event) -> Result<(), NoMemory> {
        let _ = event;
        if self.left == 0 {
            return Err(NoMemory);
        }
        self.left -= 1;
        self.told = true;
        Ok(())
    }
}

/// How many watchers were told something.
pub(crate) fn count_told(watch: &[Watcher]) -> u64 {
    let mut told = 0u64;
    for watcher in watch {
        if watcher.told {
            told = told.saturating_add(1);
        }
    }
    told
}
