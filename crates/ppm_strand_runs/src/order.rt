//! Whose turn comes next.
ghost use Rattle.std.specs.Prelude.{◌≡◌};
ghost use Rattle.ppm_strand_runs.specs.Order.{turn_of as turn_by, turns_of, left_of};
ghost use Rattle.ppm_strand_runs.specs.Order.{whose as whose_next, IsNext};

use ppm_interleaving::Turn;
use ppm_plan::{StrandAct, StrandItem};

/// The turns that are still to come: so many of one, those of the items after it, and then all
/// strands in rounds, in which the strand with the number `next` comes next if it is there.
#[derive(Clone, Copy, Debug, Drop)]
pub(crate) struct Order<'a> {
    pub turn: Turn,
    pub times: u32,
    pub items: &'a [StrandItem],
    pub next: u64,
}

/// The turn that comes next, and the order after it.
#[derive(Clone, Copy, Debug, Drop)]
pub(crate) struct Next<'a> {
    pub turn: Turn,
    pub order: Order<'a>,
}

/// The turn of an act.
fn turn_of(act: StrandAct) -> Turn
    ensures { result ≡ turn_by act }
{
    match act {
        StrandAct::Step { strand } => Turn::Step { strand },
        StrandAct::Fails { strand } => Turn::Fault { strand },
    }
}

/// Which of so many strands comes next in a round: the one with this number, or else the first.
fn whose(next: u64, strands: u64) -> u32
    ensures { result ≡ whose_next next strands }
{
    if next < strands && next < 1 << 32 {
        next as u32
    } else {
        0
    }
}

impl<'a> Order<'a> {
    /// The order of a schedule, from its beginning on.
    pub(crate) fn new(items: &'a [StrandItem]) -> Order<'a>
        ensures turns { left_of result.turn result.times result.items.now ≡ turns_of items.now }
        ensures next { result.next ≡ 0 }
    {
        Order {
            turn: Turn::Step { strand: 0 },
            times: 0,
            items,
            next: 0,
        }
    }

    /// The turn that comes next where there are so many strands.
    pub(crate) fn next(self, strands: u64) -> Next<'a>
        ensures { IsNext (left_of self.entry.turn self.entry.times self.entry.items.now) self.entry.next strands result.turn
            (left_of result.order.turn result.order.times result.order.items.now) result.order.next }
    {
        let mut turn = self.turn;
        let mut times = self.times;
        let mut left = self.items;
        while times == 0 {
            let Some((item, rest)) = left.split_first() else {
                let strand = whose(self.next, strands);
                return Next {
                    turn: Turn::Step { strand },
                    order: Order {
                        turn,
                        times,
                        items: left,
                        next: u64::from(strand) + 1,
                    },
                };
            };
            turn = turn_of(item.act);
            times = item.times;
            left = rest;
        }
        Next {
            turn,
            order: Order {
                turn,
                times: times - 1,
                items: left,
                next: self.next,
            },
        }
    }
}
