//! Watchers that wait for one another.
ghost use Rattle.std.specs.Prelude.{Some};

use ppm_ports::Watch;
use ppm_words::{Event, NoMemory};
use std::sync::atomic::{AtomicU64, Ordering};
use std::thread;

/// A watcher that keeps its events. Before each of its first ones it waits until another watcher has
/// as many, and it refuses the one after the last for which it has room.
#[derive(Drop)]
pub struct Meeting<'a> {
    pub here: &'a AtomicU64,
    pub there: &'a AtomicU64,
    pub meetings: u64,
    pub room: usize,
    pub events: Vec<Event>,
}

/// Whether the other one comes so far, in a time that is long enough.
pub fn comes(there: &AtomicU64, count: u64) -> bool {
    for _ in 0..10_000_000u64 {
        if there.load(Ordering::SeqCst) >= count {
            return true;
        }
        thread::yield_now();
    }
    false
}

impl<'a> Watch for Meeting<'a> {
    ghost told = { λ m. Some m.events.items };

    fn turn(&mut self, event: Event) -> Result<(), NoMemory> {
        let next = self.events.len() as u64;
        if next < self.meetings {
            self.here.store(next + 1, Ordering::SeqCst);
            if !comes(self.there, next + 1) {
                return Err(NoMemory);
            }
        }
        if self.events.len() >= self.room {
            return Err(NoMemory);
        }
        self.events.push(event)?;
        Ok(())
    }
}
