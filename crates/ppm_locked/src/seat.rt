//! The seat of a processor.
ghost use Rattle.std.specs.Prelude.{if◌then◌else◌};

use crate::held::Keeping;
use crate::history::{Front, History};
use ppm_core::Turn;
use std::marker::Model;
use std::sync::Wait;
use std::sync::ledger::{Book, Ledger, Share};

/// From where one processor makes its turns under the lock. It is seen as its processor's number,
/// the work turns that are booked for it, whether the run is booked as ended, whether a victim is
/// due for the processor's coming step, and the turns of the run up to the processor's last one.
#[derive(Drop)]
pub struct Seat<L: Keeping, E: Ledger> {
    processor: u32,
    has_ended: bool,
    is_due: bool,
    share: Share<L>,
    ends: Share<E>,
    front: Front<L>,
}

impl<L: Keeping, E: Ledger> Model for Seat<L, E> {
    ghost use Rattle.std.specs.Prelude.{◌≡◌, ◌<◌};
    ghost use Rattle.ppm_locked.specs.Held.{Seated, units};

    ghost Value = { Seated };

    ghost view = { λ s. record { processor = s.processor; made = s.share.amount; has_ended = s.has_ended; is_due = s.is_due; seen = s.front } };

    ghost invariant = { λ s. (s.processor < L.first.shape.processors) × (s.share.parts ≡ 1) × (s.ends.parts ≡ 1)
        × (s.ends.amount ≡ units s.has_ended) };
}

impl<L: Keeping, E: Ledger> Seat<L, E> {
    ghost use Rattle.std.specs.Prelude.{◌≡◌, ◌<◌, ◌+◌, ◌^◌, ◌++◌, ◌∷◌, [], false, length};
    ghost use mathlib.Core.List.{IsPrefix};
    ghost use Rattle.ppm_locked.specs.Held.{booked, is_set, noted, saw, units, unused};

    /// The seat of a processor, for which nothing is booked.
    pub(crate) fn new(
        processor: u32,
        share: Share<L>,
        ends: Share<E>,
        front: Front<L>,
    ) -> Seat<L, E>
        requires processor { processor < L.first.shape.processors }
        requires share { (share.parts ≡ 1) × (share.amount ≡ 0) }
        requires ends { (ends.parts ≡ 1) × (ends.amount ≡ 0) }
        requires front { front ≡ [] }
        ensures { result ≡ unused processor }
    {
        Seat {
            processor,
            has_ended: false,
            is_due: false,
            share,
            ends,
            front,
        }
    }

    /// Sees a turn of its processor, which is added to the history.
    pub(crate) fn see<R: Wait>(&mut self, rt: &R, history: &mut History<L>, turn: Turn)
        requires { length history.old < 2 ^ 62 }
        ensures added { history.new ≡ history.old ++ turn ∷ [] }
        ensures seat { self.new ≡ saw self.old (history.old ++ turn ∷ []) }
        ensures goes_on { IsPrefix self.old.seen history.old }
    {
        history.add(rt, &mut self.front, turn);
    }

    /// Books a turn of its processor, which was work or wasn't.
    pub(crate) fn book(&mut self, book: &mut Book<L>, work: bool)
        ensures seat { self.new ≡ booked self.old work }
        ensures total { book.new.total ≡ book.old.total + (if work then 1 else 0) }
    {
        if work {
            book.add(&mut self.share, 1);
        }
    }

    /// Notes what is found after a turn of its processor: the finish word, and whether a victim is
    /// due. The first finish word that isn't 0 is booked.
    pub(crate) fn note(&mut self, ends: &mut Book<E>, finish: u64, is_due: bool)
        ensures seat { self.new ≡ noted self.old finish is_due }
        ensures still { is_set finish ≡ false → ends.new.total ≡ ends.old.total }
    {
        self.is_due = is_due;
        if finish == 0 {
            return;
        }
        if self.has_ended {
            return;
        }
        ends.add(&mut self.ends, 1);
        self.has_ended = true;
    }

    /// What is booked for it, and what it has seen.
    pub(crate) fn into_parts(self) -> (Share<L>, Share<E>, Front<L>)
        ensures made { (result.0.parts ≡ 1) × (result.0.amount ≡ self.made) }
        ensures ends { result.1.amount ≡ units self.has_ended }
        ensures seen { result.2 ≡ self.seen }
    {
        let Seat {
            processor: _,
            has_ended: _,
            is_due: _,
            share,
            ends,
            front,
        } = self;
        (share, ends, front)
    }

    /// The number of its processor.
    pub fn processor(&self) -> u32
        ensures value { result ≡ self.now.processor }
        ensures range { result < L.first.shape.processors }
    {
        self.processor
    }

    /// Whether the run had ended after a turn of its processor.
    pub fn has_ended(&self) -> bool
        ensures { result ≡ self.now.has_ended }
    {
        self.has_ended
    }

    /// Whether the coming step of its processor is the load of a holder word: the one step for which
    /// its turn names the victim.
    pub fn is_due(&self) -> bool
        ensures { result ≡ self.now.is_due }
    {
        self.is_due
    }
}
