//! Where things stand in a picture.
ghost use Rattle.std.specs.Prelude.{◌≡◌, ◌≤◌, ◌^◌};
ghost use Rattle.ppm_picture.specs.Canvas as canvases;

/// What a picture is of: so many acts, which are at least 1, from this one on, of so many
/// processors.
#[derive(Clone, Copy, Debug, PartialEq, Eq)]
pub struct Canvas {
    pub acts: u64,
    pub from: u64,
    pub processors: u32,
}

/// The top of a processor's lane.
pub(crate) fn lane(processor: u32) -> u64
    ensures value { result ≡ canvases.lane processor }
    ensures bound { result ≤ 2 ^ 45 }
{
    6200 + 6000 * u64::from(processor)
}

impl Canvas {
    ghost use Rattle.std.specs.Prelude.{◌≡◌, ◌<◌, ◌≤◌, ◌^◌};
    ghost use Rattle.ppm_picture.specs.Canvas.{IsCanvas};
    ghost use Rattle.ppm_picture.specs.Canvas as canvases;

    /// Where an act stands, by how many acts before it are shown.
    pub(crate) fn across(self, act: u64) -> u64
        requires canvas { IsCanvas self }
        requires few { act ≤ 2 ^ 41 }
        ensures value { result ≡ canvases.across self act }
        ensures bound { result ≤ 2 ^ 59 }
    {
        6400 + act * 84000 / self.acts
    }

    /// How wide an act of a processor is that acts in turn with all others.
    pub(crate) fn stride(self) -> u64
        requires canvas { IsCanvas self }
        ensures value { result ≡ canvases.stride self }
        ensures bound { result ≤ 2 ^ 49 }
    {
        (u64::from(self.processors) * 84000 / self.acts).max(1)
    }

    /// How wide an act is drawn.
    pub(crate) fn width(self, act: u64) -> u64
        requires canvas { IsCanvas self }
        requires few { act ≤ 2 ^ 41 }
        ensures value { result ≡ canvases.width self act }
        ensures bound { result ≤ 2 ^ 49 }
    {
        self.stride().min(90400u64.saturating_sub(self.across(act)))
    }

    /// The middle of what is drawn of an act, where its marks stand.
    pub(crate) fn middle(self, act: u64) -> u64
        requires canvas { IsCanvas self }
        requires few { act ≤ 2 ^ 41 }
        ensures value { result ≡ canvases.middle self act }
        ensures bound { result ≤ 2 ^ 60 }
    {
        self.across(act) + self.width(act) / 2
    }

    /// What comes after the last lane.
    pub(crate) fn bottom(self) -> u64
        ensures value { result ≡ canvases.bottom self }
        ensures bound { result ≤ 2 ^ 45 }
    {
        lane(self.processors)
    }
}
