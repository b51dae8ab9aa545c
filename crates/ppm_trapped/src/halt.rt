//! Why a walk ends before the end of the run.
use crate::told::Told;
use ppm_words::NoMemory;
use std::alloc::AllocFailed;

/// Why a walk ends before the end of the run.
#[derive(Drop)]
pub(crate) enum Halt {
    /// At a trap.
    Trapped(Told),
    /// Memory was refused, or more levels would be open than a walk may have.
    NoMemory,
}

impl<T: Drop> From<AllocFailed<T>> for Halt {
    ghost use Rattle.std.specs.Prelude.{◌≡◌};
    ghost use Rattle.ppm_trapped.specs.declared.halt.Halt.TheVariants as halt;

    ghost from_gives = { λ x e. e ≡ halt.NoMemory };

    fn from(_: AllocFailed<T>) -> Self {
        Halt::NoMemory
    }
}

impl From<NoMemory> for Halt {
    ghost use Rattle.std.specs.Prelude.{◌≡◌};
    ghost use Rattle.ppm_trapped.specs.declared.halt.Halt.TheVariants as halt;

    ghost from_gives = { λ x e. e ≡ halt.NoMemory };

    fn from(_: NoMemory) -> Self {
        Halt::NoMemory
    }
}
