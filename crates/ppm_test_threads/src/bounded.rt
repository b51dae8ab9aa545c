//! Watchers that refuse.
ghost use Rattle.std.specs.Prelude.{Some};

use ppm_ports::Watch;
use ppm_words::{Event, NoMemory};
use std::alloc::Global;

/// A watcher that keeps so many events, and refuses the next one.
#[derive(Drop)]
pub struct Bounded {
    pub left: u32,
    pub events: Vec<Event>,
}

impl Bounded {
    /// One that was told nothing yet.
    pub fn new(alloc: Global, left: u32) -> Self {
        Bounded {
            left,
            events: Vec::new(alloc),
        }
    }
}

impl Watch for Bounded {
    ghost told = { λ b. Some b.events.items };

    fn turn(&mut self, event: Event) -> Result<(), NoMemory> {
        if self.left == 0 {
            return Err(NoMemory);
        }
        self.events.push(event)?;
        self.left -= 1;
        Ok(())
    }
}
