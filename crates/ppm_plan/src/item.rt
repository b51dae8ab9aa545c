//! What items of plans and of schedules have in common.
ghost use Rattle.std.specs.Prelude.{◌≡◌};
ghost use Rattle.ppm_plan.specs.Forms.{Form};

/// An item that a piece of a text reads as.
pub(crate) trait Item: Sized + Copy {
    /// The form of its texts.
    ghost form: { Form Self };

    /// The item of a piece.
    fn read(piece: &[u8]) -> Option<Self>
        ensures { result ≡ form.reading piece.now };

    /// Whether it names a processor that so many do not have.
    fn is_outside(&self, processors: u32) -> bool
        ensures { result ≡ form.is_outside processors self.now };

    /// Whether it kills the processor.
    fn kills(&self, processor: u32) -> bool
        ensures { result ≡ form.kills processor self.now };
}
