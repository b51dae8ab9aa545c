//! A watcher that keeps what it is told.
ghost use Rattle.std.specs.Prelude.{◌≡◌, [], Some};

use crate::watch::Watch;
use ppm_words::{Event, NoMemory};
use std::alloc::Global;
use std::marker::Model;

/// A watcher that keeps the events that it is told, the oldest first. It refuses one where memory
/// is refused.
#[derive(Debug, Drop)]
pub struct Recorder {
    events: Vec<Event>,
}

impl Model for Recorder {
    ghost use Rattle.std.specs.Prelude.{List};
    ghost use Rattle.ppm_words.specs.declared.event.Event.{Event};

    ghost Value = { List Event };

    ghost view = { λ r. r.events.items };
}

impl Recorder {
    /// A recorder that was told nothing yet. It takes its memory as it is told events.
    pub fn new(alloc: Global) -> Self
        ensures { result ≡ [] }
    {
        Recorder {
            events: Vec::new(alloc),
        }
    }

    /// The events that it was told, the oldest first.
    pub fn events(&self) -> &[Event]
        ensures { result.now ≡ self.now }
    {
        &self.events
    }
}

impl Watch for Recorder {
    ghost told = { λ r. Some r };

    fn turn(&mut self, event: Event) -> Result<(), NoMemory> {
        self.events.push(event)?;
        Ok(())
    }
}
