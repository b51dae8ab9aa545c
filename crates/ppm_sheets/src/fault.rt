//! Why a sheet was not judged to its end.
use std::alloc::{AllocError, AllocFailed};
use std::io;

/// Why a sheet was not judged to its end.
#[derive(Drop)]
pub enum Fault {
    /// Memory was refused.
    NoMemory,
    /// The sheet can't be read, or nothing more can be printed.
    File,
    /// A line that a sheet can't have there, and why.
    Line(&'static str),
}

impl<T: Drop> From<AllocFailed<T>> for Fault {
    fn from(_: AllocFailed<T>) -> Self {
        Fault::NoMemory
    }
}

impl From<AllocError> for Fault {
    fn from(_: AllocError) -> Self {
        Fault::NoMemory
    }
}

impl From<io::Error> for Fault {
    fn from(_: io::Error) -> Self {
        Fault::File
    }
}

/// Why a call can't be made.
#[derive(Clone, Copy)]
pub enum Unmade {
    /// Memory was refused.
    NoMemory,
    /// Its words ask for nothing.
    Words,
}

impl From<Unmade> for Fault {
    fn from(why: Unmade) -> Self {
        match why {
            Unmade::NoMemory => Fault::NoMemory,
            Unmade::Words => Fault::Line("words that ask for nothing"),
        }
    }
}

impl From<Fault> for Unmade {
    fn from(fault: Fault) -> Self {
        match fault {
            Fault::NoMemory => Unmade::NoMemory,
            Fault::File | Fault::Line(_) => Unmade::Words,
        }
    }
}
