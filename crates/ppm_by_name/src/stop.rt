//! Why a frame is not filled.
use ppm_words::{NoMemory, Trap};

/// Why a frame is not filled.
#[derive(Clone, Copy, Debug, PartialEq, Eq)]
pub enum Stop {
    /// An argument has a trap, in this line.
    Trapped(Trap, u32),
    /// Memory was refused.
    NoMemory,
}

impl From<NoMemory> for Stop {
    ghost use Rattle.std.specs.Prelude.{◌≡◌};
    ghost use Rattle.ppm_by_name.specs.declared.stop.Stop.TheVariants as stop;

    ghost from_gives = { λ x e. e ≡ stop.NoMemory };

    fn from(_: NoMemory) -> Self {
        Stop::NoMemory
    }
}
