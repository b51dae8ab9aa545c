//! What a use asks of a name.
ghost use Rattle.std.specs.Prelude.{◌≡◌};
ghost use Rattle.ppm_regions.specs.Scope.{is_region};
ghost use Rattle.ppm_regions.specs.Faults.{fits, asks_region};

use ppm_tree::Mode;

/// What a use asks of a name.
#[derive(Clone, Copy, Debug, PartialEq, Eq)]
pub enum Ask {
    /// That it is declared.
    Any,
    /// A local, to be read.
    Local,
    /// A local, to be assigned, or to get the value of a call.
    Assigned,
    /// A region, to be read, split or lent to be read.
    Region,
    /// A region, to be written or lent to be written.
    Written,
}

/// Whether the mode is that of a region.
pub fn is_region(mode: Mode) -> bool
    ensures { result ≡ is_region mode }
{
    match mode {
        Mode::Mut | Mode::Ref => true,
        Mode::Int => false,
    }
}

impl Ask {
    /// Whether a declaration of this mode is of the kind that is asked for.
    pub fn fits(self, mode: Mode) -> bool
        ensures { result ≡ fits self mode }
    {
        match self {
            Ask::Any => true,
            Ask::Local | Ask::Assigned => !is_region(mode),
            Ask::Region | Ask::Written => is_region(mode),
        }
    }

    /// Whether a region is asked for.
    pub fn is_for_region(self) -> bool
        ensures { result ≡ asks_region self }
    {
        match self {
            Ask::Any | Ask::Local | Ask::Assigned => false,
            Ask::Region | Ask::Written => true,
        }
    }
}
