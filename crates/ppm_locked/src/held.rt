//! What stands under the lock.
ghost use Rattle.std.specs.Prelude.{◌≡◌, ◌+◌, ◌==◌, [], ℕ, replicate, vec_len};
ghost use Rattle.std.specs.List.{sum_by};
ghost use mathlib.Core.List.{IsPrefix};
ghost use Rattle.logbook.specs.Pages.{Book};
ghost use Rattle.ppm_core.specs.Acts.{IsActAmong};
ghost use Rattle.ppm_core.specs.Machine.{seen};
ghost use Rattle.ppm_core.specs.Situation.{Situation, finish_in};
ghost use Rattle.ppm_step.specs.State.{opening, seeks_holder, stand_of};
ghost use Rattle.ppm_locked.specs.Held.{EndsHold, EndsWhereDone, HasMade, HasSeenRun, HaveSeen, IsRun, IsTold, act_done, booked, is_set, noted, nothing, saw, units};

use crate::history::{Front, History};
use crate::seat::Seat;
use ppm_core::{Act, Machine, Next, Told, Turn, Why};
use std::marker::{Brand, Model};
use std::sync::Wait;
use std::sync::ledger::{Book, Ledger, Share};

/// After so many turns a machine makes no more.
const TURN_LIMIT: u64 = 1 << 62;

/// Which machine stands under a lock: each lock has a type for it, which also names the ledger in
/// which the work turns are booked, and the history of its turns.
pub trait Keeping: Ledger {
    ghost use Rattle.logbook.specs.Pages.{Book};

    /// The machine before its first turn.
    ghost first: { Situation };

    /// The work turns that each processor may make.
    ghost most: { ℕ };

    /// The parts of the ledger.
    ghost all: { ℕ };

    /// The history of the turns.
    ghost history: { Book };
}

impl Keeping for Brand {
    ghost first = { nothing };

    ghost most = { 0 };

    ghost all = { 0 };

    ghost history = { record { number = 0; log_name = 0; cells_name = 0 } };
}

/// A machine some run has come to, what each of its processors has spent in that run, the book of
/// all work turns, the book of the seats that have found the run ended, the parts of both ledgers
/// that no seat has, and the turns of the run.
#[derive(Drop)]
pub(crate) struct Held<L: Keeping, E: Ledger> {
    machine: Machine,
    most: u64,
    spent: Vec<u64>,
    book: Book<L>,
    ends: Book<E>,
    rest: Share<L>,
    rest_of_ends: Share<E>,
    history: History<L>,
}

impl<L: Keeping, E: Ledger> Model for Held<L, E> {
    ghost use Rattle.std.specs.Prelude.{◌≡◌, ◌+◌, false};
    ghost use Rattle.ppm_core.specs.Machine.{seen};
    ghost use Rattle.ppm_core.specs.Situation.{finish_in};
    ghost use Rattle.ppm_locked.specs.Held.{IsCounted, IsOpening, IsRun, Kept, is_set};

    ghost Value = { Kept };

    ghost view = { λ h. record { machine = h.machine; spent = h.spent.items; history = h.history } };

    ghost invariant = { λ h. (IsRun L.first L.most h.history (seen h.machine) × IsCounted L.first h.spent.items h.history) × (h.most ≡ L.most) × (h.book.total ≡ h.machine.work)
        × (h.rest.parts + L.first.shape.processors ≡ L.all) × (h.rest.amount ≡ 0)
        × (is_set (finish_in (seen h.machine)) ≡ false → h.ends.total ≡ 0) × IsOpening L.first };
}

/// Never comes back.
pub(crate) fn wait_for_good<R: Wait>(rt: &R)
    ensures { ⊥ }
{
    for _ in rt.forever() {
        continue;
    }
    unreachable!()
}

/// The act that is done where this one is asked.
fn act_done(is_spent: bool, next: Next, act: Act) -> Act
    ensures { result ≡ act_done is_spent next act }
{
    match act {
        Act::Step { victim } => if is_spent {
            match next {
                Next::Work => Act::Quit(Why::Turns),
                Next::Look | Next::Seek | Next::Done => Act::Step { victim },
            }
        } else {
            Act::Step { victim }
        },
        Act::Soft => Act::Soft,
        Act::Hard => Act::Hard,
        Act::Quit(Why::Turns) => if is_spent {
            Act::Quit(Why::Turns)
        } else {
            Act::Step { victim: 0 }
        },
        Act::Quit(Why::Watch) => Act::Quit(Why::Watch),
    }
}

/// All that is booked for some seats, and all that they have seen.
fn gather<L: Keeping, E: Ledger>(
    all: &mut Share<L>,
    ends: &mut Share<E>,
    front: &mut Front<L>,
    mut seats: Vec<Seat<L, E>>,
)
    ensures parts { all.new.parts ≡ all.old.parts + vec_len seats }
    ensures amount { all.new.amount ≡ all.old.amount + sum_by (λ seat. seat.made) seats.items }
    ensures ends { ends.new.amount ≡ ends.old.amount + sum_by (λ seat. units seat.has_ended) seats.items }
    ensures front { IsPrefix front.old front.new }
    ensures seen { HaveSeen seats.items front.new }
{
    if let Some(seat) = seats.pop() {
        let (share, end, seen) = seat.into_parts();
        all.merge(share);
        ends.merge(end);
        front.learn(&seen);
        gather(all, ends, front, seats);
    }
}

impl<L: Keeping, E: Ledger> Held<L, E> {
    /// A machine before its first turn, of which nothing is booked.
    pub(crate) fn new(
        machine: Machine,
        most: u64,
        spent: Vec<u64>,
        work: (Book<L>, Share<L>),
        ends: (Book<E>, Share<E>),
        history: History<L>,
    ) -> Held<L, E>
        requires first { (seen machine ≡ L.first) × (machine.work ≡ 0) }
        requires opening { L.first.state ≡ opening L.first.state.words L.first.shape.processors }
        requires most { most ≡ L.most }
        requires spent { spent.items ≡ replicate L.first.shape.processors 0 }
        requires books { (work.0.total ≡ 0) × (ends.0.total ≡ 0) × ((work.1.parts + L.first.shape.processors ≡ L.all) × (work.1.amount ≡ 0)) }
        requires history { history ≡ [] }
    {
        let _ = machine.code().parts();
        let (book, rest) = work;
        let (ends, rest_of_ends) = ends;
        Held {
            machine,
            most,
            spent,
            book,
            ends,
            rest,
            rest_of_ends,
            history,
        }
    }

    /// One turn of a seat's processor, which is booked for the seat where it is work, and what the
    /// seat notes after it. Where the processor has made all its work turns and the act would be one
    /// more it quits, and a quit for spent turns that is asked before is a step. After 2^62 turns the
    /// call never comes back.
    pub(crate) fn turn<R: Wait>(&mut self, rt: &R, seat: &mut Seat<L, E>, act: Act) -> Told
        requires { IsActAmong L.first.shape.processors act }
        ensures made { HasMade L.first L.most self.old.history act seat.old seat.new result }
        ensures history { self.new.history ≡ seat.new.seen }
        ensures ended { EndsWhereDone act result seat.new.has_ended }
    {
        let told = self.make(rt, seat, act);
        self.note(seat);
        told
    }

    /// The turn, which is booked.
    fn make<R: Wait>(&mut self, rt: &R, seat: &mut Seat<L, E>, act: Act) -> Told
        requires { IsActAmong L.first.shape.processors act }
        ensures told { IsTold L.first L.most self.old.history seat.old.processor act self.new.history result }
        ensures run { IsRun L.first L.most self.new.history (seen self.new.machine) }
        ensures seat { seat.new ≡ booked (saw seat.old self.new.history) result.work }
        ensures goes_on { IsPrefix seat.old.seen self.old.history }
        ensures ended { EndsWhereDone act result (is_set (finish_in (seen self.new.machine))) }
    {
        let _ = self.machine.array_lengths();
        if self.machine.turns() >= TURN_LIMIT {
            wait_for_good(rt);
        }
        let processor = seat.processor();
        let made = self.spent[processor as usize];
        let next = self.machine.next(processor);
        let act = act_done(made == self.most, next, act);
        let turn = Turn { processor, act };
        seat.see(rt, &mut self.history, turn);
        let told = self.machine.turn(turn);
        if told.work {
            self.spent[processor as usize] = made + 1;
        }
        seat.book(&mut self.book, told.work);
        told
    }

    /// What a seat notes after a turn of its processor.
    fn note(&mut self, seat: &mut Seat<L, E>)
        ensures machine { (self.new.machine ≡ self.old.machine) × (self.new.history ≡ self.old.history) }
        ensures seat { seat.new ≡ noted seat.old (finish_in (seen self.old.machine))
            (seeks_holder (stand_of (seen self.old.machine).state seat.old.processor)) }
    {
        let finish = self.machine.finish_word();
        let is_due = self.machine.seeks_holder(seat.processor());
        seat.note(&mut self.ends, finish, is_due);
    }

    /// The machine, once all seats are back.
    pub(crate) fn into_machine(self, seats: Vec<Seat<L, E>>) -> Machine
        requires seats { vec_len seats ≡ L.first.shape.processors }
        requires ledger { L.all ≡ L.parts }
        ensures run { HasSeenRun L.first L.most seats.items (seen result) }
        ensures work { result.work ≡ sum_by (λ seat. seat.made) seats.items }
        ensures ended { EndsHold seats.items (seen result) }
    {
        let Held {
            machine,
            most: _,
            spent: _,
            mut book,
            mut ends,
            mut rest,
            mut rest_of_ends,
            history,
        } = self;
        let mut front = history.front();
        gather(&mut rest, &mut rest_of_ends, &mut front, seats);
        book.audit(&mut rest);
        ends.audit(&mut rest_of_ends);
        machine
    }
}
