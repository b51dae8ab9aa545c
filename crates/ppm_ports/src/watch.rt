//! Who is told the events of a run.
ghost use Rattle.std.specs.Prelude.{List, Option};
ghost use Rattle.ppm_words.specs.declared.event.Event.{Event};
ghost use Rattle.ppm_ports.specs.Told.{TellsOne};

use ppm_words::{Event, NoMemory};

/// A watcher of one processor. It may be moved to another thread.
pub trait Watch: Send {
    /// The events that it was told, the oldest first, where the watcher shows them.
    ghost told: { Self → Option (List Event) };

    /// Puts an event after the list at `Ok`, and leaves the list as it is at `Err`.
    fn turn(&mut self, event: Event) -> Result<(), NoMemory>
        ensures { TellsOne (told self.old) (told self.new) event result };
}
