//! What a sweep finds.
ghost use Rattle.std.specs.Prelude.{◌≡◌, ◌+◌, IfErr, OnOk};
ghost use Rattle.ppm_sweep.specs.declared.found.Stop.{Stop};
ghost use Rattle.ppm_sweep.specs.declared.found.Stop.TheVariants as stops;

use ppm_core::Machine;
use ppm_plan::ScheduleItem;
use ppm_words::NoMemory as OutOfMemory;
use std::alloc::{AllocError, AllocFailed};

/// What is counted of the schedules of a sweep. The runs of those that are not left out came to the
/// outcome that is wanted.
#[derive(Clone, Copy, Debug, PartialEq, Eq)]
pub struct Tally {
    /// How many schedules there were that are not left out.
    pub runs: u64,
    /// How many faults were put into them, each of which was met.
    pub met: u64,
    /// How many acts their runs made.
    pub acts: u64,
    /// How many were left out, since they have more items than a schedule may.
    pub left: u64,
}

/// The most that is counted.
const MOST: u64 = 1 << 62;

impl Tally {
    /// Nothing is counted yet.
    pub fn zero() -> Tally
        ensures { result ≡ record { runs = 0; met = 0; acts = 0; left = 0 } }
    {
        Tally {
            runs: 0,
            met: 0,
            acts: 0,
            left: 0,
        }
    }

    /// Counts a run with so many faults and so many acts. More than 2^62 of anything are as if
    /// memory were wanting.
    pub(crate) fn count(&mut self, faults: u64, acts: u64) -> Result<(), Stop>
        ensures runs { OnOk result (self.new.runs ≡ self.old.runs + 1) }
        ensures met { OnOk result (self.new.met ≡ self.old.met + faults) }
        ensures acts { OnOk result (self.new.acts ≡ self.old.acts + acts) }
        ensures left { self.new.left ≡ self.old.left }
        ensures stops { IfErr result (λ e. e ≡ stops.NoMemory) }
    {
        if self.runs >= MOST || self.met >= MOST || self.acts >= MOST {
            return Err(Stop::NoMemory);
        }
        if faults >= MOST || acts >= MOST {
            return Err(Stop::NoMemory);
        }
        self.runs += 1;
        self.met += faults;
        self.acts += acts;
        Ok(())
    }

    /// Counts a schedule that is left out. More than 2^62 of them are as if memory were wanting.
    pub(crate) fn leave_out(&mut self) -> Result<(), Stop>
        ensures left { OnOk result (self.new.left ≡ self.old.left + 1) }
        ensures others { (self.new.runs ≡ self.old.runs) × (self.new.met ≡ self.old.met) × (self.new.acts ≡ self.old.acts) }
        ensures stops { IfErr result (λ e. e ≡ stops.NoMemory) }
    {
        if self.left >= MOST {
            return Err(Stop::NoMemory);
        }
        self.left += 1;
        Ok(())
    }
}

/// The first schedule of a sweep whose run came to something else, and the machine after that run.
#[derive(Drop)]
pub struct Differing {
    pub items: Vec<ScheduleItem>,
    pub machine: Machine,
}

/// Why a sweep stops.
#[derive(Drop)]
pub enum Stop {
    /// A run came to something else.
    Differs(Differing),
    /// Memory was refused.
    NoMemory,
}

impl<T: Drop> From<AllocFailed<T>> for Stop {
    ghost use Rattle.std.specs.Prelude.{◌≡◌};
    ghost use Rattle.ppm_sweep.specs.declared.found.Stop.TheVariants.{NoMemory};

    ghost from_gives = { λ _ e. e ≡ NoMemory };

    fn from(_: AllocFailed<T>) -> Self {
        Stop::NoMemory
    }
}

impl From<AllocError> for Stop {
    ghost use Rattle.std.specs.Prelude.{◌≡◌};
    ghost use Rattle.ppm_sweep.specs.declared.found.Stop.TheVariants.{NoMemory};

    ghost from_gives = { λ _ e. e ≡ NoMemory };

    fn from(_: AllocError) -> Self {
        Stop::NoMemory
    }
}

impl From<OutOfMemory> for Stop {
    ghost use Rattle.std.specs.Prelude.{◌≡◌};
    ghost use Rattle.ppm_sweep.specs.declared.found.Stop.TheVariants.{NoMemory};

    ghost from_gives = { λ _ e. e ≡ NoMemory };

    fn from(_: OutOfMemory) -> Self {
        Stop::NoMemory
    }
}
