//! The history of a lock, and what a seat has seen of it.
ghost use Rattle.std.specs.Prelude.{◌≡◌, ◌<◌, ◌^◌, ◌++◌, ◌∷◌, [], length};
ghost use mathlib.Core.List.{IsPrefix};

use crate::held::{Keeping, wait_for_good};
use logbook::{Gain, Offer, Plain, Play, Rule, Seen, Start, Word};
use ppm_core::Turn;
use std::marker::{Model, PhantomData};
use std::sync::Wait;

/// The rule of a history: its word is the number of its turns.
pub(crate) struct Law;

impl Rule<Turn, u64> for Law {
    ghost use Rattle.std.specs.Prelude.{[]};
    ghost use base.Fml.{ftrue};
    ghost use Rattle.ppm_locked.specs.History.{IsKept};

    ghost holds = { λ cells turns. IsKept cells turns };

    ghost first = { [] };

    ghost hinted = { λ word turns. Unit {0} };

    ghost shows = { λ turns. [] };

    ghost keeps = { λ names turns. ftrue };

    ghost moves = { λ ask before now answer. Unit {0} };
}

/// Seats trade nothing.
pub(crate) struct Nothing;

impl Gain<Turn, u64> for Nothing {
    ghost use base.Fml.{ftrue};

    ghost after = { λ names about answer. ftrue };
}

/// A step that adds a turn.
pub(crate) struct Add;

impl Play<Turn, u64> for Add {
    ghost use Rattle.ppm_locked.specs.History.{Adds};

    ghost then = { Adds };
}

impl Plain<Turn, Turn, u64> for Add {
    ghost use Rattle.std.specs.Prelude.{None};

    ghost ask = { λ turn. turn };

    ghost state = { λ turn. None };
}

/// A history without turns, which no type stands for yet. It is seen as its name.
#[derive(Drop)]
pub struct BlankHistory {
    count: Word<Turn, u64, Law>,
    all: Seen<Turn, u64, Law>,
}

impl Model for BlankHistory {
    ghost use Rattle.std.specs.Prelude.{◌≡◌, []};
    ghost use Rattle.logbook.specs.Pages.{Book};
    ghost use Rattle.ppm_locked.specs.History.{count_in};

    ghost Value = { Book };

    ghost view = { λ h. h.all.book };

    ghost invariant = { λ h. (h.all.log ≡ []) × (h.count ≡ count_in h.all.book) };
}

impl BlankHistory {
    /// A new one.
    pub fn new() -> BlankHistory {
        let (all, mut first, _second) = Seen::open(Start::alone(), 0, 0);
        BlankHistory {
            count: Word::tracked(0, &mut first),
            all,
        }
    }
}

/// A beginning of a lock's history, which was seen. It is seen as its turns.
#[derive(Drop)]
pub(crate) struct Front<L: Keeping> {
    seen: Seen<Turn, u64, Law>,
    of: PhantomData<L>,
}

impl<L: Keeping> Model for Front<L> {
    ghost use Rattle.std.specs.Prelude.{◌≡◌, List};
    ghost use Rattle.ppm_step.specs.declared.turn.Turn.{Turn};

    ghost Value = { List Turn };

    ghost view = { λ f. f.seen.log };

    ghost invariant = { λ f. f.seen.book ≡ L.history };
}

impl<L: Keeping> Front<L> {
    /// Learns what another front has seen.
    pub(crate) fn learn(&mut self, other: &Front<L>)
        ensures own { IsPrefix self.old self.new }
        ensures other { IsPrefix other.now self.new }
    {
        self.seen.learn(&other.seen);
    }
}

/// The history of a lock. It is seen as its turns.
#[derive(Drop)]
pub(crate) struct History<L: Keeping> {
    count: Word<Turn, u64, Law>,
    turns: u64,
    all: Seen<Turn, u64, Law>,
    of: PhantomData<L>,
}

impl<L: Keeping> Model for History<L> {
    ghost use Rattle.std.specs.Prelude.{◌≡◌, List, length};
    ghost use Rattle.ppm_step.specs.declared.turn.Turn.{Turn};
    ghost use Rattle.ppm_locked.specs.History.{count_in};

    ghost Value = { List Turn };

    ghost view = { λ h. h.all.log };

    ghost invariant = { λ h. (h.turns ≡ length h.all.log) × (h.all.book ≡ L.history) × (h.count ≡ count_in L.history) };
}

impl<L: Keeping> History<L> {
    /// The history without turns.
    pub(crate) fn new(blank: BlankHistory) -> History<L>
        requires { blank ≡ L.history }
        ensures { result ≡ [] }
    {
        let BlankHistory { count, all } = blank;
        History {
            count,
            turns: 0,
            all,
            of: PhantomData,
        }
    }

    /// All of it, as it stands.
    pub(crate) fn front(&self) -> Front<L>
        ensures { result ≡ self.now }
    {
        Front {
            seen: self.all.again(),
            of: PhantomData,
        }
    }

    /// Adds a turn, which the front has seen then. It never comes back where the word is not the
    /// number of turns: nobody else changes it, and no contract of the word says so.
    pub(crate) fn add<R: Wait>(&mut self, rt: &R, front: &mut Front<L>, turn: Turn)
        requires { length self.old < 2 ^ 62 }
        ensures added { self.new ≡ self.old ++ turn ∷ [] }
        ensures seen { front.new ≡ self.old ++ turn ∷ [] }
        ensures goes_on { IsPrefix front.old self.old }
    {
        let mut both = self.all.again();
        both.learn(&front.seen);
        let mut offer: Offer<Turn, u64, Law, Nothing> = both.plain::<Nothing, Turn, Add>(&turn);
        let mut pen = both.no_pen();
        let turns = self.turns;
        let found = self
            .count
            .compare_exchange::<Add, Nothing>(turns, turns + 1, &mut both, &mut offer, &mut pen);
        if found != turns {
            wait_for_good(rt);
        }
        self.turns = turns + 1;
        self.all = both.again();
        front.seen = both;
    }
}
