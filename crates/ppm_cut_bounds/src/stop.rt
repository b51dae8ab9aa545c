//! Why a walk through a block stops.
use ppm_words::NoMemory;

/// Why a walk through a block stops.
#[derive(Clone, Copy)]
pub enum Stop {
    /// A bound is passed.
    Past,
    /// Memory was refused.
    NoMemory,
}

impl From<NoMemory> for Stop {
    ghost use Rattle.std.specs.Prelude.{◌≡◌};
    ghost use Rattle.ppm_cut_bounds.specs.declared.stop.Stop.TheVariants as stop;

    ghost from_gives = { λ _ e. e ≡ stop.NoMemory };

    fn from(_: NoMemory) -> Self {
        Stop::NoMemory
    }
}
