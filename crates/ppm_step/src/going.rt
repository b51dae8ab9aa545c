//! What comes of a step of a capsule.
use ppm_cells::Restart;

/// What comes of a step of a capsule.
#[derive(Clone, Copy, Debug, PartialEq, Eq)]
pub enum Going {
    /// It goes on, if what it asks next is there; else it has met broken words.
    Went(bool),
    /// Its place goes on with this restart.
    Installed(Restart),
}
