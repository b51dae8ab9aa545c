//! Victims, drawn at random.
ghost use Rattle.std.specs.Prelude.{◌≡◌, ◌<◌, ◌≤◌, ◌^◌, ℕ, suc, ◌∷◌};
ghost use Rattle.std.specs.Int.{IsInRange};
ghost use Rattle.ppm_plan.specs.Draws.{victims_of, next_victims};

use rand_core::SeedableRng;
use rand_core::utils::NextWord;
use rand_xoshiro::Xoshiro256PlusPlus;
use std::marker::Model;

/// The victims that a processor looks at, one after the other: words of a generator of its own.
#[derive(Debug, Drop)]
pub struct Victims {
    words: Xoshiro256PlusPlus,
    processors: u32,
}

impl Model for Victims {
    ghost use Rattle.std.specs.Prelude.{◌<◌};
    ghost use Rattle.ppm_plan.specs.Draws.{Drawing};

    ghost Value = { Drawing };

    ghost view = { λ v. record { words = v.words; processors = v.processors } };

    ghost invariant = { λ v. 0 < v.processors };
}

impl Victims {
    /// Those of processor `processor` among `processors`, from 1 to 64, with the seed `seed`.
    pub fn new(seed: u32, processor: u32, processors: u32) -> Victims
        requires range { IsInRange 1 64 processors }
        requires there { processor < processors }
        ensures { (k : ℕ) → next_victims result k ≡ victims_of seed processor processors k }
    {
        Victims {
            words: Xoshiro256PlusPlus::seed_from_u64(u64::from(seed) + u64::from(processor)),
            processors,
        }
    }

    /// The next one.
    pub fn next(&mut self) -> u32
        ensures { (k : ℕ) → next_victims self.old (suc k) ≡ result ∷ next_victims self.new k }
    {
        let word = self.words.next_word();
        (word % u64::from(self.processors)) as u32
    }
}
