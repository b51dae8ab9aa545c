//! How a table is closed, once all its processors are back.
ghost use Rattle.std.specs.Prelude.{◌≡◌, ◌<◌, []};
ghost use Rattle.ppm_table.specs.Run.{both_of};
ghost use Rattle.ppm_table.specs.Counting.{none_counted};
ghost use Rattle.ppm_table.specs.Shown.{AllHeld, AllOf, Grows, counts_with};

use crate::act_counts::ActCounts;
use crate::closed::{Closed, closed_over};
use crate::processor::{Processor, Shared};
use crate::view::{View, Wholes, Words};
use atomic_table::Seat;

impl Processor {
    fn into_seat(self) -> Seat<(), View>
        ensures { result ≡ self.seat }
    {
        let Processor {
            local: _,
            seat,
            counts: _,
            apart: _,
        } = self;
        seat
    }
}

/// A seat takes in what another one knew.
fn join(words: &Words, seat: &mut Seat<(), View>, other: Seat<(), View>)
    requires table { (seat.old.table_id ≡ words.now.shared.table_id) × (0 < words.now.shared.table_id.words)
        × (other.table_id ≡ seat.old.table_id) }
    requires mine { (seat.old.me.1 ≡ []) × (other.me.1 ≡ []) }
    ensures table { seat.new.table_id ≡ seat.old.table_id }
    ensures views { seat.new.me ≡ (both_of seat.old.me.0 other.me.0, []) }
{
    words.shared.join_seat::<Wholes>(seat, other);
}

/// It takes in what all these processors knew.
fn gather(words: &Words, seat: &mut Seat<(), View>, mut rest: Vec<Processor>)
    requires table { (seat.old.table_id ≡ words.now.shared.table_id) × (0 < words.now.shared.table_id.words) }
    requires mine { seat.old.me.1 ≡ [] }
    requires rest { AllOf words.now.shared.table_id rest.items }
    ensures table { (seat.new.table_id ≡ seat.old.table_id) × (seat.new.me.1 ≡ []) }
    ensures held { AllHeld rest.items seat.new.me.0 }
    ensures grows { Grows seat.old.me.0 seat.new.me.0 }
{
    if let Some(last) = rest.pop() {
        join(words, seat, last.into_seat());
        gather(words, seat, rest);
    }
}

/// What these processors have counted together.
pub fn total_counts(processors: &[Processor]) -> ActCounts
    ensures { result ≡ counts_with none_counted processors.now }
{
    let mut all = ActCounts::none();
    let mut left = processors;
    while let [first, rest @ ..] = left {
        all = all.and(first.counts);
        left = rest;
    }
    all
}

impl Shared {
    ghost use Rattle.std.specs.Prelude.{◌≡◌, ◌<◌, vec_len};
    ghost use Rattle.ppm_table.specs.Shown.{InOrder, ClosedRun, opening_of};

    /// The words, once the processors are back: these words and what each processor did are one
    /// run. No word is copied, and it takes no memory. There is at least one processor.
    pub fn close(self, mut processors: Vec<Processor>) -> Closed
        requires { (0 < vec_len processors) × InOrder self 0 processors.items }
        ensures sizes { (result.shape ≡ self.shape) × (result.array_lengths ≡ self.lengths) }
        ensures run { ClosedRun (opening_of self) result.words processors.items }
    {
        let Shared {
            words,
            shape,
            code: _,
            lengths,
            widths: _,
            counted: _,
        } = self;
        let Some(last) = processors.pop() else {
            unreachable!()
        };
        let mut seat = last.into_seat();
        gather(&words, &mut seat, processors);
        closed_over(words.close_with(seat), shape, lengths)
    }
}
