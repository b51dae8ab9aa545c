//! What a watcher counts of the events that it is told.
ghost use Rattle.std.specs.Prelude.{None};

use ppm_cells::{Cell, Entry, Restart, RestartKind, Shape};
use ppm_ports::Watch;
use ppm_words::{Event, NoMemory};
use std::fmt;

/// What one processor met, or all of them.
#[derive(Clone, Copy, Debug, Drop)]
pub struct Counts {
    /// The sizes of the machine; without them nothing is counted.
    shape: Option<Shape>,
    /// The capsule that its place goes on with.
    capsule: Option<RestartKind>,
    /// The place that the first taken entry names which it loaded in that capsule; out of a local
    /// entry 64 more.
    taker: Option<u32>,
    /// The soft faults that it had.
    soft: u64,
    /// The hard ones.
    hard: u64,
    /// How often it parked.
    parked: u64,
    /// The branches that it took from other places' deques.
    stolen: u64,
    /// The places of dead processors that it carried on.
    carried: u64,
    /// The strands of closed places that went on with it.
    inherited: u64,
}

impl Counts {
    /// Nothing yet.
    pub fn new(shape: Option<Shape>) -> Self {
        Counts {
            shape,
            capsule: None,
            taker: None,
            soft: 0,
            hard: 0,
            parked: 0,
            stolen: 0,
            carried: 0,
            inherited: 0,
        }
    }

    /// The sums of these.
    pub fn of_all(each: &[Counts]) -> Self {
        let mut all = Counts::new(None);
        for one in each {
            all.soft = all.soft.saturating_add(one.soft);
            all.hard = all.hard.saturating_add(one.hard);
            all.parked = all.parked.saturating_add(one.parked);
            all.stolen = all.stolen.saturating_add(one.stolen);
            all.carried = all.carried.saturating_add(one.carried);
            all.inherited = all.inherited.saturating_add(one.inherited);
        }
        all
    }

    /// A load: of a restart word, of an entry that was taken, or of something else.
    fn load(&mut self, shape: Shape, event: Event) {
        if is_restart(shape, event) {
            self.begin(event.value);
        } else if self.taker.is_none() {
            if let Some(Entry::Taken { taker, .. }) = Entry::unpack(event.value) {
                self.taker = Some(taker);
            }
        }
    }

    /// A store. That of a carry word is a place carried on. A `Check` installs `Seek` where it has
    /// found nothing, and else goes on with what it has found.
    fn store(&mut self, shape: Shape, event: Event) {
        if event.word >= 1 && event.word <= shape.processors {
            self.carried = self.carried.saturating_add(1);
        }
        if !is_restart(shape, event) {
            return;
        }
        let checked = matches!(self.capsule, Some(RestartKind::Check { .. }));
        let taker = self.taker.unwrap_or(0);
        self.begin(event.value);
        let found = !matches!(self.capsule, Some(RestartKind::Seek));
        if checked && found {
            if taker < 64 {
                self.stolen = self.stolen.saturating_add(1);
            } else {
                self.inherited = self.inherited.saturating_add(1);
            }
        }
    }

    /// Its place goes on with the capsule of a restart word.
    fn begin(&mut self, word: u64) {
        self.capsule = match Restart::unpack(word) {
            Some(restart) => Some(restart.kind),
            None => None,
        };
        self.taker = None;
    }
}

/// Whether an event is of the restart word of the place that its processor carries.
fn is_restart(shape: Shape, event: Event) -> bool {
    if event.place >= shape.processors {
        return false;
    }
    event.word == shape.address(Cell::RestartWord { place: event.place })
}

impl Watch for Counts {
    ghost told = { λ _. None };

    fn turn(&mut self, event: Event) -> Result<(), NoMemory> {
        let Some(shape) = self.shape else {
            return Ok(());
        };
        match event.step {
            1 => self.load(shape, event),
            2 => self.store(shape, event),
            4 => self.soft = self.soft.saturating_add(1),
            5 => self.hard = self.hard.saturating_add(1),
            7 => self.parked = self.parked.saturating_add(1),
            _ => {}
        }
        Ok(())
    }
}

impl fmt::Display for Counts {
    fn fmt<W: fmt::Write>(&self, f: &mut fmt::Formatter<W>) -> fmt::Result {
        write!(
            f,
            "soft {} hard {} parked {} stolen {} carried {} inherited {}",
            self.soft, self.hard, self.parked, self.stolen, self.carried, self.inherited
        )
    }
}
