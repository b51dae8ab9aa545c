//! What a sweep is asked for.
ghost use Rattle.std.specs.Prelude.{◌≡◌, ◌<◌, ◌≤◌, ◌+◌, ◌^◌, nat_le};
ghost use Rattle.ppm_sweep.specs.Sweep.{is_in};
ghost use Rattle.ppm_sweep.specs.Visits.{one_less, over};
ghost use Rattle.ppm_sweep.specs.Windows.{made_in};

/// The acts of a run before which faults are put, counted from 0: `acts` of them from the act
/// number `from` on.
#[derive(Clone, Copy, Debug, PartialEq, Eq)]
pub struct Window {
    pub from: u64,
    pub acts: u64,
}

impl Window {
    /// Whether the act with a number is one of them.
    pub(crate) fn has(self, number: u64) -> bool
        ensures { result ≡ is_in self number }
    {
        self.from <= number && number - self.from < self.acts
    }

    /// Whether the act with a number comes after all of them.
    pub(crate) fn is_before(self, number: u64) -> bool
        ensures { result ≡ nat_le (self.from + self.acts) number }
    {
        self.from <= number && self.acts <= number - self.from
    }

    /// How many of them a run makes that makes so many acts.
    pub(crate) fn made(self, acts: u64) -> u64
        ensures { result ≡ made_in self acts }
    {
        if acts <= self.from {
            return 0;
        }
        self.acts.min(acts - self.from)
    }
}

/// Acts that are drawn from a window.
#[derive(Clone, Copy, Debug, PartialEq, Eq)]
pub struct Draws {
    /// How many are drawn; one may be drawn again.
    pub runs: u32,
    /// The seed of the words that draw them.
    pub seed: u32,
}

/// How a sweep is made.
#[derive(Clone, Copy, Debug, PartialEq, Eq)]
pub struct Sweeping {
    /// The processor that no hard fault strikes.
    pub keeper: u32,
    /// How many acts each run has at most, up to 2^40.
    pub turns: u64,
    /// How many faults are put into a schedule at most.
    pub faults: u32,
    /// Before which acts of the base run the first of them is put.
    pub window: Window,
    /// Where it is put before acts that are drawn from the window: which ones. With `None` it is
    /// put before each act of the window.
    pub drawn: Option<Draws>,
}

impl Sweeping {
    /// The sweep after the next fault: it has one fault less to put, before any act.
    pub(crate) fn deeper(self) -> Sweeping
        requires { 0 < self.faults }
        ensures { result ≡ one_less self }
    {
        Sweeping {
            keeper: self.keeper,
            turns: self.turns,
            faults: self.faults - 1,
            window: Window {
                from: 0,
                acts: self.turns,
            },
            drawn: None,
        }
    }

    /// The sweep over each act of another window.
    pub(crate) fn over(self, window: Window) -> Sweeping
        ensures { result ≡ over self window }
    {
        Sweeping {
            keeper: self.keeper,
            turns: self.turns,
            faults: self.faults,
            window,
            drawn: None,
        }
    }
}
