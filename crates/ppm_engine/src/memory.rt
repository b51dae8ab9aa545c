//! Words on which a processor makes steps.
ghost use Rattle.std.specs.Prelude.{◌≡◌, ◌≢◌, ◌+◌, ◌≤◌, ℕ, Option, List};
ghost use Rattle.ppm_cells.specs.declared.shape.Shape.{Shape};
ghost use Rattle.ppm_code.specs.declared.code.CodeParts.{CodeParts};
ghost use Rattle.ppm_engine.specs.Memory.{Counts, Spot, spot, none, both, one, IsToMake, CameOf};
ghost use Rattle.ppm_step.specs.Standings.{Standing, went};
ghost use Rattle.ppm_words.specs.declared.event.Event.{Event};

use ppm_cells::Shape;
use ppm_ports::Watch;
use ppm_step::Want;

/// Why a processor makes no further step of a row.
#[derive(Clone, Copy, Debug, PartialEq, Eq)]
pub enum Stop {
    /// It has met words with which no row goes on.
    Broken,
    /// The run is over; the step was not made.
    Over,
    /// The watcher refused what it was told of the step.
    Refused,
}

/// Words on which a processor makes steps. What is only read is `self`; what a step changes is the
/// processor's own: a seat of words that are shared, or all words.
pub trait Memory {
    type Own;

    ghost shape: { Self → Shape };

    ghost code: { Self → CodeParts };

    /// The processor with a number stands there.
    ghost at: { Self → ℕ → Spot Self.Own → Type 0 };

    /// So many steps of this processor, each of which its watcher was told, lead from the one to the
    /// other.
    ghost led: { Self → ℕ → Spot Self.Own → Spot Self.Own → Counts → Type 0 };

    /// So do at most so many, of which the watcher refused the last.
    ghost refused: { Self → ℕ → Spot Self.Own → Spot Self.Own → ℕ → Type 0 };

    /// It may say that the run is over.
    ghost over: { Self → Type 0 };

    /// The sizes.
    fn shape(&self) -> Shape
        ensures { result ≡ shape self.now };

    /// Makes a word step and tells the watcher of it: what a load found, and else 0. It never meets
    /// broken words.
    fn step<W: Watch>(
        &self,
        own: &mut Self::Own,
        watch: &mut W,
        number: u32,
        place: u32,
        want: Want,
    ) -> Result<u64, Stop>
        requires stands { (x : Standing) × at self.now number (spot own.old x (W.told watch.old)) × IsToMake (shape self.now) number place x want }
        ensures { (x : Standing) → at self.now number (spot own.old x (W.told watch.old)) → IsToMake (shape self.now) number place x want
            → CameOf (led self.now number) (refused self.now number) (over self.now) (spot own.old x (W.told watch.old)) own.new (W.told watch.new)
            (λ word. went (shape self.now) (code self.now) number 0 word x) (one x want) result };

    /// After steps the processor stands where they lead.
    ghost stays: { (m : Self) (own : ℕ) (a b : Spot Self.Own) (c : Counts) → led m own a b c → at m own b };

    /// No step leads nowhere.
    ghost rest: { (m : Self) (own : ℕ) (a : Spot Self.Own) → at m own a → led m own a a none };

    /// Steps after steps are steps.
    ghost on: { (m : Self) (own : ℕ) (x y z : Spot Self.Own) (c d : Counts) → led m own x y c → led m own y z d → led m own x z (both c d) };

    /// After steps, at most so many more, of which the last was refused.
    ghost stopped: { (m : Self) (own : ℕ) (x y z : Spot Self.Own) (c : Counts) (n most : ℕ) → led m own x y c → refused m own y z n
        → c.made + n ≤ most → refused m own x z most };
}
