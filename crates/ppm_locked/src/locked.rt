//! The lock.
ghost use Rattle.std.specs.Prelude.{◌≡◌, ◌+◌, ◌≤◌, if◌then◌else◌, true, [], List, IfOk, map, vec_len};
ghost use Rattle.std.specs.List.{range_with_len, sum_by};
ghost use Rattle.ppm_core.specs.Acts.{IsActAmong};
ghost use Rattle.ppm_core.specs.Machine.{seen};
ghost use Rattle.ppm_core.specs.Situation.{loaded};
ghost use Rattle.ppm_step.specs.declared.turn.Turn.{Turn};
ghost use Rattle.ppm_locked.specs.Held.{EndsHold, EndsWhereDone, HasMade, HasSeenRun, unused};

use crate::held::{Held, Keeping};
use crate::history::{BlankHistory, History};
use crate::seat::Seat;
use ppm_code::Code;
use ppm_core::{Act, Image, Machine, Told};
use ppm_words::NoMemory;
use std::alloc::Global;
use std::sync::ledger::{Blank, Ledger, Share};
use std::sync::{Mutex, Wait};

/// The words of a machine, under one lock. What stands there is at every moment what some run from
/// the opening of its type has come to, in which no processor has made more work turns than its
/// type allows, and each that quits since its turns are spent has made as many.
#[derive(Drop)]
pub struct Locked<L: Keeping, E: Ledger> {
    held: Mutex<Held<L, E>>,
}

/// A seat for each processor, with a part of either ledger.
fn seats_for<L: Keeping, E: Ledger>(
    alloc: Global,
    processors: u32,
    rest: &mut Share<L>,
    rest_of_ends: &mut Share<E>,
    history: &History<L>,
) -> Result<Vec<Seat<L, E>>, NoMemory>
    requires processors { processors ≡ L.first.shape.processors }
    requires rest { (processors ≤ rest.old.parts) × (rest.old.amount ≡ 0) }
    requires ends { (processors ≤ rest_of_ends.old.parts) × (rest_of_ends.old.amount ≡ 0) }
    requires history { history.now ≡ [] }
    ensures rest { IfOk result (λ _. (rest.new.parts + processors ≡ rest.old.parts) × (rest.new.amount ≡ 0)) }
    ensures seats { IfOk result (λ seats. seats.items ≡ map unused (range_with_len 0 processors)) }
{
    let mut seats = Vec::new(alloc);
    for own in 0..processors {
        let share = rest.split_off(1, 0);
        let end = rest_of_ends.split_off(1, 0);
        seats.push(Seat::new(own, share, end, history.front()))?;
    }
    Ok(seats)
}

impl<L: Keeping, E: Ledger> Locked<L, E> {
    /// The words of an image under a lock, and a seat for each processor in order. Each processor
    /// may make `most` work turns. In one ledger the work turns are booked, in the other one the
    /// seats that find the run ended. Each blank has at least as many parts as there are processors.
    /// The turns are put into the history.
    pub fn load(
        alloc: Global,
        image: Image,
        code: Code,
        most: u64,
        work: Blank,
        ends: Blank,
        history: BlankHistory,
    ) -> Result<(Locked<L, E>, Vec<Seat<L, E>>), NoMemory>
        requires first { L.first ≡ loaded image.shape code image.lengths image.words }
        requires most { L.most ≡ most }
        requires work { (work.name ≡ L.name) × (work.parts ≡ L.parts) × (L.all ≡ L.parts) }
        requires ends { (ends.name ≡ E.name) × (ends.parts ≡ E.parts) }
        requires history { history ≡ L.history }
        requires parts { (image.shape.processors ≤ work.parts) × (image.shape.processors ≤ ends.parts) }
        ensures { IfOk result (λ made. made.1.items ≡ map unused (range_with_len 0 image.shape.processors)) }
    {
        let processors = image.shape.processors;
        let machine = Machine::load(alloc, image, code)?;
        let (book, mut rest) = work.open::<L>();
        let (ends, mut rest_of_ends) = ends.open::<E>();
        let history = History::<L>::new(history);
        let seats = seats_for(alloc, processors, &mut rest, &mut rest_of_ends, &history)?;
        let spent = vec![in alloc; 0; processors as usize]?;
        let held = Held::new(
            machine,
            most,
            spent,
            (book, rest),
            (ends, rest_of_ends),
            history,
        );
        Ok((
            Locked {
                held: Mutex::new(held),
            },
            seats,
        ))
    }

    /// One turn of the seat's processor on the words under the lock, which is booked for the seat
    /// where it is work, and what is told of it where it stands in the run. The seat has seen the run
    /// up to it, and notes whether the run has ended then; it has if the processor is done by this
    /// turn, and the turn was no hard fault. A victim that the act names is a
    /// processor. Where the processor has made all its work turns and the act would be one more it
    /// quits, and a quit for spent turns that is asked before is a step. It takes no memory. After
    /// 2^62 turns it never comes back.
    pub fn turn<R: Wait>(&self, rt: &R, seat: &mut Seat<L, E>, act: Act) -> Told
        requires { IsActAmong L.first.shape.processors act }
        ensures processor { seat.new.processor ≡ seat.old.processor }
        ensures made { seat.new.made ≡ seat.old.made + (if result.work then 1 else 0) }
        ensures turn { (before : List Turn) × HasMade L.first L.most before act seat.old seat.new result }
        ensures ended { EndsWhereDone act result seat.new.has_ended }
        ensures stays { seat.old.has_ended ≡ true → seat.new.has_ended ≡ true }
    {
        self.held.lock(rt).turn(rt, seat, act)
    }

    /// The machine under the lock, once all its seats are back. Some run has come to it from the
    /// opening. Its turns and what each seat has seen are beginnings of one list, and its work turns
    /// are together as many as are booked for the seats. Where one of the seats has found the run
    /// ended, the finish word isn't 0.
    pub fn close(self, seats: Vec<Seat<L, E>>) -> Machine
        requires seats { vec_len seats ≡ L.first.shape.processors }
        requires ledger { L.all ≡ L.parts }
        ensures run { HasSeenRun L.first L.most seats.items (seen result) }
        ensures work { result.work ≡ sum_by (λ seat. seat.made) seats.items }
        ensures ended { EndsHold seats.items (seen result) }
    {
        let Locked { held } = self;
        held.into_inner().into_machine(seats)
    }
}
