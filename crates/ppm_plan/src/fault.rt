//! The faults of a processor.
ghost use Rattle.std.specs.Prelude.{◌≡◌};
ghost use Rattle.ppm_plan.specs.Forms.{is_hard as hard};

/// A fault of a processor.
#[derive(Clone, Copy, Debug, PartialEq, Eq)]
pub enum Fault {
    /// It loses its registers, and begins its capsule again.
    Soft,
    /// It stops for ever.
    Hard,
}

impl Fault {
    /// Whether the processor stops for ever.
    pub fn is_hard(self) -> bool
        ensures { result ≡ hard self }
    {
        match self {
            Fault::Soft => false,
            Fault::Hard => true,
        }
    }
}
